use byte_view::{Cur, Part, ViewFault};

fn over(file: &[u8]) -> Cur<'_> {
    let len = file.len();
    Cur::new(Part { file, at: 0, len })
}

const NUMBERS: [(&[u8], Result<u64, ViewFault>, Result<i64, ViewFault>); 5] = [
    (b"\xb6\x42", Ok(8502), Ok(-7882)),
    (b"\x7f", Ok(127), Ok(-1)),
    (
        b"\xff\xff\xff\xff\xff\xff\xff\xff\xff\x01",
        Ok(u64::MAX),
        Err(ViewFault::LebTooLong),
    ),
    (
        b"\xff\xff\xff\xff\xff\xff\xff\xff\xff\x7f",
        Err(ViewFault::LebTooLong),
        Ok(-1),
    ),
    (b"\x80\x80", Err(ViewFault::Short), Err(ViewFault::Short)),
];

#[test]
fn reads_leb128(rt: HostRuntime) {
    for (bytes, unsigned, signed) in NUMBERS {
        assert_eq!(rt; over(bytes).uleb(), unsigned);
        assert_eq!(rt; over(bytes).sleb(), signed);
    }
}
