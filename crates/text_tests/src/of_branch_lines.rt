use branch_lines::{MAX_KEPT, read_line};
use refusal::Kind;
use std::test::Fail;

/// A line, the answer to it, and how many branches it has.
const LINES: [(&[u8], Result<(), Kind>, usize); 6] = [
    (b"0x401036 0x1/0x2", Ok(()), 1),
    (b"# 0x1/0x2", Ok(()), 0),
    (b"x PERF_RECORD_MMAP2 x", Ok(()), 0),
    (b"0x1/0x2/P\r", Ok(()), 1),
    (b"0x1/0x2\r", Err(Kind::BadLine), 0),
    (b"0x1/0x10000000000000000", Err(Kind::BadLine), 0),
];

#[test]
fn a_line_is_read_or_refused(rt: HostRuntime) -> Result<(), Fail> {
    let mut branches = Vec::with_capacity(rt.alloc(), MAX_KEPT)?;
    for (line, answer, count) in LINES {
        assert_eq!(rt; read_line(line, &mut branches), answer, "{line:?}");
        assert_eq!(rt; branches.len(), count, "{line:?}");
    }
    Ok(())
}
