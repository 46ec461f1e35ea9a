use byte_view::{Cur, Part};
use dwarf_abbrev::{read_first, read_table};

/// Codes that are not 1, 2, 3 and so on, and a constant that stands in the table.
const TABLE: &[u8] =
    b"\x09\x2e\x00\x3b\x21\x7f\x00\x00\x02\x11\x00\x00\x00\xc8\x01\x1d\x00\x00\x00\x00";

const TAGS: [(u64, Option<u64>); 4] = [(2, Some(0x11)), (200, Some(0x1d)), (1, None), (3, None)];

#[test]
fn finds_codes_in_any_order(rt: HostRuntime) {
    let whole = Part {
        file: TABLE,
        at: 0,
        len: 20,
    };
    let Ok(table) = read_table(rt.alloc(), whole) else {
        panic!(rt; "not read");
    };
    for (code, tag) in TAGS {
        assert_eq!(rt; table.find(code).map(|abbrev| abbrev.tag), tag);
    }
    let Some(first) = table.find(9) else {
        panic!(rt; "not found");
    };
    let implicit = first.attrs.first().map(|attr| attr.implicit);
    assert_eq!(rt; implicit, Some(-1));
}

#[test]
fn reads_the_first_abbreviation(rt: HostRuntime) {
    let mut cur = Cur::new(Part {
        file: TABLE,
        at: 0,
        len: 20,
    });
    let Ok(Some(first)) = read_first(rt.alloc(), &mut cur) else {
        panic!(rt; "not read");
    };
    assert_eq!(rt; first.find(9).map(|abbrev| abbrev.tag), Some(0x2e));
    assert_eq!(rt; first.len(), 1);
    assert_eq!(rt; cur.at(), 8);
}
