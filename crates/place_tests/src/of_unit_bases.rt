use byte_view::Part;
use dwarf_info::{Units, read_units};
use dwarf_strings::{Bases, Texts};
use entry_facts::{base_address, bases_of};
use refusal::Stop;
use std::alloc::Global;
use std::test::Fail;

/// The root of a whole unit with three bases and an indexed address, that of a partial unit with
/// one base and an address, and a function.
const ABBREV: &'static [u8] = &[
    0x01, 0x11, 0x00, 0x72, 0x17, 0x73, 0x17, 0x74, 0x17, 0x11, 0x1b, 0x00, 0x00, 0x02, 0x3c, 0x00,
    0x73, 0x06, 0x11, 0x01, 0x00, 0x00, 0x03, 0x2e, 0x00, 0x11, 0x01, 0x00, 0x00, 0x00,
];

/// A unit of version 5, one of version 4 in 64-bit DWARF, and one that has no root.
const INFO: &'static [u8] = &[
    0x16, 0x00, 0x00, 0x00, 0x05, 0x00, 0x01, 0x08, 0x00, 0x00, 0x00, 0x00, 0x01, 0x08, 0x00, 0x00,
    0x00, 0x08, 0x00, 0x00, 0x00, 0x0c, 0x00, 0x00, 0x00, 0x00, 0xff, 0xff, 0xff, 0xff, 0x18, 0x00,
    0x00, 0x00, 0x00, 0x00, 0x00, 0x00, 0x04, 0x00, 0x00, 0x00, 0x00, 0x00, 0x00, 0x00, 0x00, 0x00,
    0x08, 0x02, 0x10, 0x00, 0x00, 0x00, 0x00, 0x10, 0x40, 0x00, 0x00, 0x00, 0x00, 0x00, 0x10, 0x00,
    0x00, 0x00, 0x04, 0x00, 0x00, 0x00, 0x00, 0x00, 0x08, 0x03, 0x00, 0x10, 0x40, 0x00, 0x00, 0x00,
    0x00, 0x00,
];

const ADDR: &'static [u8] = b"\0\0\0\0\0\0\0\0\x00\x20\x40\0\0\0\0\0";

fn whole(file: &[u8]) -> Option<Part<'_>> {
    let len = file.len();
    if len < 1000 {
        Some(Part { file, at: 0, len })
    } else {
        None
    }
}

fn read(alloc: Global) -> Result<Units<'static>, Stop> {
    match whole(INFO) {
        Some(part) if part.len < 1000 => read_units(alloc, Some(part), whole(ABBREV)),
        _ => read_units(alloc, None, None),
    }
}

fn texts(addr: Option<Part<'_>>) -> Texts<'_> {
    Texts {
        str: None,
        line_str: None,
        str_offsets: None,
        addr,
    }
}

fn bases(wide: bool, of_roots: [Option<u64>; 3]) -> Bases {
    let [str_offsets, addr, rnglists] = of_roots;
    Bases {
        wide,
        str_offsets,
        addr,
        rnglists,
    }
}

#[test]
fn roots_say_bases_and_addresses(rt: HostRuntime) -> Result<(), Fail> {
    let Ok(units) = read(rt.alloc()) else {
        panic!(rt; "not read");
    };
    let there = texts(whole(ADDR));
    let cases = [
        (0, bases(false, [Some(8), Some(8), Some(12)]), 0x40_2000),
        (1, bases(true, [None, Some(16), None]), 0x40_1000),
        (2, bases(false, [None, None, None]), 0),
        (3, bases(false, [None, None, None]), 0),
    ];
    for (unit, counted, base) in cases {
        assert_eq!(rt; bases_of(&units, unit), counted);
        assert_eq!(rt; base_address(&units, unit, &there), Ok(base));
    }
    Ok(())
}
