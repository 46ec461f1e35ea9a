use byte_view::Part;
use dwarf_info::{Units, read_units};
use dwarf_ranges::RangeParts;
use dwarf_strings::{Bases, Texts};
use elf_sections::{Elf, read};
use entry_facts::{InUnit, Lists, MAX_PIECES, pieces};
use refusal::Stop;
use std::alloc::Global;
use std::test::Fail;

// A file whose one segment is code from 0x1000 up to 0x2000.
const FILE: &[u8; 120] = b"\x7fELF\x02\x01\x01\0\0\0\0\0\0\0\0\0\
    \x02\0\x3e\0\x01\0\0\0\0\0\0\0\0\0\0\0\x40\0\0\0\0\0\0\0\0\0\0\0\0\0\0\0\
    \0\0\0\0\x40\0\x38\0\x01\0\x40\0\0\0\0\0\
    \x01\0\0\0\x05\0\0\0\0\0\0\0\0\0\0\0\0\x10\0\0\0\0\0\0\0\x10\0\0\0\0\0\0\
    \0\0\0\0\0\0\0\0\0\x10\0\0\0\0\0\0\0\x10\0\0\0\0\0\0";

// Three ranges that are counted from the base, the second of which is no code.
const RANGES: &[u8] = b"\0\x10\0\0\0\0\0\0\x10\x10\0\0\0\0\0\0\
    \0\x40\0\0\0\0\0\0\x10\x40\0\0\0\0\0\0\
    \x20\x10\0\0\0\0\0\0\x30\x10\0\0\0\0\0\0\
    \0\0\0\0\0\0\0\0\0\0\0\0\0\0\0\0";

// What entries have: nothing; DW_AT_low_pc; DW_AT_high_pc, as a size; both, in either order; both
// as addresses; both with a size of 8 bytes; and DW_AT_low_pc by index with DW_AT_ranges.
const ABBREVS: &[u8] = b"\x01\x2e\0\0\0\x02\x2e\0\x11\x01\0\0\x03\x2e\0\x12\x0b\0\0\
    \x04\x2e\0\x11\x01\x12\x0b\0\0\x05\x2e\0\x12\x0b\x11\x01\0\0\
    \x06\x2e\0\x11\x01\x12\x01\0\0\x07\x2e\0\x11\x01\x12\x07\0\0\
    \x08\x2e\0\x11\x1b\x55\x17\0\0\0";

// A unit with ten entries, each on a line of its own.
const INFO: &[u8] = b"\x6a\0\0\0\x04\0\0\0\0\0\x08\
    \x01\
    \x02\0\x10\0\0\0\0\0\0\
    \x03\x40\
    \x04\0\x10\0\0\0\0\0\0\x40\
    \x05\x40\0\x10\0\0\0\0\0\0\
    \x06\0\x10\0\0\0\0\0\0\0\x20\0\0\0\0\0\0\
    \x06\0\x10\0\0\0\0\0\0\x01\x20\0\0\0\0\0\0\
    \x07\0\x10\0\0\0\0\0\0\xff\xff\xff\xff\xff\xff\xff\xff\
    \x04\0\0\0\0\0\0\0\0\x40\
    \x08\0\0\0\0\0";

// The code that each of these entries has.
const KEPT: [(usize, &[(u64, u64)]); 10] = [
    (0, &[]),
    (1, &[]),
    (2, &[]),
    (3, &[(0x1000, 0x1040)]),
    (4, &[(0x1000, 0x1040)]),
    (5, &[(0x1000, 0x2000)]),
    (6, &[]),
    (7, &[]),
    (8, &[]),
    (9, &[(0x1000, 0x1010), (0x1020, 0x1030)]),
];

fn code(alloc: Global) -> Result<Elf<'static>, Stop> {
    read(alloc, FILE)
}

fn of_unit() -> InUnit<'static> {
    let len = RANGES.len();
    InUnit {
        parts: RangeParts {
            ranges: Some(Part {
                file: RANGES,
                at: 0,
                len,
            }),
            rnglists: None,
            texts: Texts {
                str: None,
                line_str: None,
                str_offsets: None,
                addr: None,
            },
        },
        version: 4,
        base: 0,
        bases: Bases {
            wide: false,
            str_offsets: None,
            addr: None,
            rnglists: None,
        },
    }
}

fn read_info(alloc: Global) -> Result<Units<'static>, Stop> {
    let info = Part {
        file: INFO,
        at: 0,
        len: INFO.len().min(1000),
    };
    let abbrevs = Part {
        file: ABBREVS,
        at: 0,
        len: ABBREVS.len().min(1000),
    };
    read_units(alloc, Some(info), Some(abbrevs))
}

// The pieces of the entry of a number.
fn pieces_of(
    alloc: Global,
    elf: &Elf<'_>,
    units: &Units<'_>,
    number: usize,
) -> Result<Vec<(u64, u64)>, Stop> {
    let mut lists = Lists::new(alloc);
    match units.entry(number) {
        Some(entry) => pieces(alloc, elf, &of_unit(), MAX_PIECES - 2, &entry, &mut lists),
        None => Err(Stop::NoMemory),
    }
}

#[test]
fn code_is_kept(rt: HostRuntime) -> Result<(), Fail> {
    let elf = code(rt.alloc())?;
    let units = read_info(rt.alloc())?;
    for (number, kept) in KEPT {
        match pieces_of(rt.alloc(), &elf, &units, number) {
            Ok(found) => assert_eq!(rt; found.as_slice(), kept),
            Err(_) => assert!(rt; false),
        }
    }
    Ok(())
}
