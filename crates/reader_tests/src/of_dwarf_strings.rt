use byte_view::Part;
use dwarf_forms::Value;
use dwarf_strings::{Bases, Texts, address, text};
use refusal::Kind;

const STR: &[u8] = b"ab\0hi\0cd";

const STR_OFFSETS: &[u8] = b"\0\0\0\0\0\0\0\0\x03\0\0\0\x09\0\0\0\x06\0\0\0\0\0\0";

const ADDR: &[u8] = b"\0\0\0\0\0\0\0\0\x00\x20\x40\0\0\0\0\0";

fn whole(file: &[u8]) -> Option<Part<'_>> {
    let len = file.len();
    Some(Part { file, at: 0, len })
}

fn sections() -> Texts<'static> {
    Texts {
        str: whole(STR),
        line_str: whole(b"line\0"),
        str_offsets: whole(STR_OFFSETS),
        addr: whole(ADDR),
    }
}

const BASES: Bases = Bases {
    wide: false,
    str_offsets: Some(8),
    addr: Some(8),
    rnglists: None,
};

const NO_BASES: Bases = Bases {
    wide: false,
    str_offsets: None,
    addr: None,
    rnglists: None,
};

const WIDE: Bases = Bases {
    wide: true,
    str_offsets: Some(0),
    addr: None,
    rnglists: None,
};

const TEXTS: [(Value<'static>, Bases, Result<&[u8], Kind>); 8] = [
    (Value::Text(b"in"), NO_BASES, Ok(b"in")),
    (Value::StrAt(3), NO_BASES, Ok(b"hi")),
    (Value::LineStrAt(1), NO_BASES, Ok(b"ine")),
    (Value::StrIndex(0), BASES, Ok(b"hi")),
    (Value::StrIndex(0), WIDE, Ok(b"ab")),
    (Value::StrIndex(0), NO_BASES, Err(Kind::NoBase)),
    (Value::StrAt(8), BASES, Err(Kind::NoNul)),
    (Value::StrAt(9), BASES, Err(Kind::PastSection)),
];

#[test]
fn resolves_texts_by_the_first_cause(rt: HostRuntime) {
    let there = sections();
    for (value, bases, meant) in TEXTS {
        assert_eq!(rt; text(value, &there, &bases), meant);
    }
    assert_eq!(rt; address(Value::AddrIndex(0), &there, &BASES), Ok(0x402000));
}
