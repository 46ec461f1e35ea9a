use std::test::Fail;
use text_scan::{NumberFault, decimal, hex, push_number};

const HEX: [(&[u8], Result<u64, NumberFault>); 5] = [
    (b"FfFfFfFfFfFfFfFf", Ok(u64::MAX)),
    (b"00000000000000000000000a", Ok(10)),
    (b"10000000000000000", Err(NumberFault::NumberTooLarge)),
    (b"10000000000000000g", Err(NumberFault::NotNumber)),
    (b"0x1", Err(NumberFault::NotNumber)),
];

#[test]
fn numbers_are_read_exactly(rt: HostRuntime) {
    for (text, want) in HEX {
        assert_eq!(rt; hex(text), want);
    }
}

const DECIMAL: [(&[u8], Result<u64, NumberFault>); 4] = [
    (b"18446744073709551615", Ok(u64::MAX)),
    (b"18446744073709551616", Err(NumberFault::NumberTooLarge)),
    (
        b"99999999999999999999999999999999999999999a",
        Err(NumberFault::NotNumber),
    ),
    (b"+1", Err(NumberFault::NotNumber)),
];

#[test]
fn decimal_numbers_are_read_exactly(rt: HostRuntime) {
    for (text, want) in DECIMAL {
        assert_eq!(rt; decimal(text), want);
    }
}

#[test]
fn a_number_is_written_behind_what_stands(rt: HostRuntime) -> Result<(), Fail> {
    let mut out = Vec::from_slice(rt.alloc(), b"# ")?;
    push_number(&mut out, u128::MAX)?;
    assert_eq!(rt;
        out.as_slice(),
        b"# 340282366920938463463374607431768211455".as_slice()
    );
    Ok(())
}
