use byte_view::{Cur, Part};
use dwarf_forms::{UnitShape, Value, read_value};

const NARROW: UnitShape = UnitShape { wide: false };

const WIDE: UnitShape = UnitShape { wide: true };

fn over(file: &[u8]) -> Cur<'_> {
    let len = file.len();
    Cur::new(Part { file, at: 0, len })
}

const BYTES: &[u8] = b"\x03\x00\x00\x00\x00\x00\x00\x00\x09\x0a\x0b\x0c\x0d\x0e\x0f\x10\x11";

/// Each form, the value of those bytes and how many of them it has in 32-bit DWARF.
const EACH: [(u64, Value<'static>, usize); 39] = [
    (0x01, Value::Addr(3), 8),
    (0x03, Value::Block(b"\x00\x00\x00"), 5),
    (0x04, Value::Block(b"\x00\x00\x00"), 7),
    (0x05, Value::Const(3), 2),
    (0x06, Value::Const(3), 4),
    (0x07, Value::Const(3), 8),
    (0x08, Value::Text(b"\x03"), 2),
    (0x09, Value::Block(b"\x00\x00\x00"), 4),
    (0x0a, Value::Block(b"\x00\x00\x00"), 4),
    (0x0b, Value::Const(3), 1),
    (0x0c, Value::Flag(true), 1),
    (0x0d, Value::Const(3), 1),
    (0x0e, Value::StrAt(3), 4),
    (0x0f, Value::Const(3), 1),
    (0x10, Value::RefInfo(3), 4),
    (0x11, Value::Ref(3), 1),
    (0x12, Value::Ref(3), 2),
    (0x13, Value::Ref(3), 4),
    (0x14, Value::Ref(3), 8),
    (0x15, Value::Ref(3), 1),
    (0x17, Value::Offset(3), 4),
    (0x18, Value::Block(b"\x00\x00\x00"), 4),
    (0x19, Value::Flag(true), 0),
    (0x1a, Value::StrIndex(3), 1),
    (0x1b, Value::AddrIndex(3), 1),
    (
        0x1e,
        Value::Block(b"\x03\x00\x00\x00\x00\x00\x00\x00\x09\x0a\x0b\x0c\x0d\x0e\x0f\x10"),
        16,
    ),
    (0x1f, Value::LineStrAt(3), 4),
    (0x20, Value::Sig(3), 8),
    (0x21, Value::Const(u64::MAX), 0),
    (0x22, Value::LocIndex(3), 1),
    (0x23, Value::RangeIndex(3), 1),
    (0x25, Value::StrIndex(3), 1),
    (0x26, Value::StrIndex(3), 2),
    (0x27, Value::StrIndex(3), 3),
    (0x28, Value::StrIndex(3), 4),
    (0x29, Value::AddrIndex(3), 1),
    (0x2a, Value::AddrIndex(3), 2),
    (0x2b, Value::AddrIndex(3), 3),
    (0x2c, Value::AddrIndex(3), 4),
];

#[test]
fn reads_each_form(rt: HostRuntime) {
    for (form, value, size) in EACH {
        let mut cur = over(BYTES);
        assert_eq!(rt; read_value(&mut cur, form, -1, NARROW), Ok(value));
        assert_eq!(rt; cur.at(), size);
    }
}

const OFFSETS: [(u64, Value<'static>); 4] = [
    (0x0e, Value::StrAt(3)),
    (0x10, Value::RefInfo(3)),
    (0x17, Value::Offset(3)),
    (0x1f, Value::LineStrAt(3)),
];

#[test]
fn offsets_have_8_bytes_in_64_bit_dwarf(rt: HostRuntime) {
    for (form, value) in OFFSETS {
        let mut cur = over(BYTES);
        assert_eq!(rt; read_value(&mut cur, form, 0, WIDE), Ok(value));
        assert_eq!(rt; cur.at(), 8);
    }
}
