use byte_view::Part;
use chain_model::Member;
use dwarf_info::{Units, read_units};
use dwarf_ranges::RangeParts;
use dwarf_strings::Texts;
use elf_sections::{Elf, read};
use inline_tree::{Source, make};
use key_types::NameId;
use refusal::Stop;
use std::alloc::Global;

// A file whose one segment is code from 0x401000 up to 0x401040.
const FILE: &[u8; 120] = b"\x7fELF\x02\x01\x01\0\0\0\0\0\0\0\0\0\
    \x02\0\x3e\0\x01\0\0\0\0\0\0\0\0\0\0\0\x40\0\0\0\0\0\0\0\0\0\0\0\0\0\0\0\
    \0\0\0\0\x40\0\x38\0\x01\0\x40\0\0\0\0\0\
    \x01\0\0\0\x05\0\0\0\0\0\0\0\0\0\0\0\0\x10\x40\0\0\0\0\0\0\x10\x40\0\0\0\0\0\
    \0\0\0\0\0\0\0\0\x40\0\0\0\0\0\0\0\0\x10\0\0\0\0\0\0";

// Abbreviations up to 40, and a unit: a function with a call below a lexical block, with a function
// that has a call of its own, and with a call that reaches behind it.
const NESTED: &'static [u8] = b"\x01\x11\x01\0\0\x02\x2e\x01\x03\x08\x11\x01\x12\x0b\0\0\
    \x03\x0b\x01\0\0\x04\x1d\0\x03\x08\x59\x0b\x11\x01\x12\x0b\0\0\x05\x1d\x01\0\0\0\
    \x4c\0\0\0\x04\0\0\0\0\0\x08\x01\
    \x02f\0\0\x10\x40\0\0\0\0\0\x30\
    \x03\x04a\0\x0c\x10\x10\x40\0\0\0\0\0\x04\0\
    \x02h\0\x20\x10\x40\0\0\0\0\0\x10\x04b\0\x15\x24\x10\x40\0\0\0\0\0\x04\0\
    \x04c\0\x0d\x2c\x10\x40\0\0\0\0\0\x08\0\0";

const NO_PARTS: RangeParts<'static> = RangeParts {
    ranges: None,
    rnglists: None,
    texts: Texts {
        str: None,
        line_str: None,
        str_offsets: None,
        addr: None,
    },
};

fn code(alloc: Global) -> Result<Elf<'static>, Stop> {
    read(alloc, FILE)
}

// The units of a file, which stand behind its abbreviations from an offset on.
fn units(alloc: Global, file: &[u8], at: usize) -> Option<Units<'_>> {
    if file.len() < at || file.len() > 1000 {
        return None;
    }
    let abbrev = Part {
        file,
        at: 0,
        len: at,
    };
    let info = Part {
        file,
        at,
        len: file.len() - at,
    };
    match read_units(alloc, Some(info), Some(abbrev)) {
        Ok(units) => Some(units),
        Err(_) => None,
    }
}

// The members of such units.
fn members(alloc: Global, file: &[u8], at: usize) -> Option<Result<Vec<Member>, Stop>> {
    let units = units(alloc, file, at)?;
    let Ok(elf) = code(alloc) else {
        return None;
    };
    let source = Source {
        elf: &elf,
        start: at,
        units: &units,
        parts: &NO_PARTS,
    };
    match make(alloc, &source) {
        Ok(made) => Some(Ok(made.members)),
        Err(stop) => Some(Err(stop)),
    }
}

#[test]
fn calls_are_of_the_nearest_function(rt: HostRuntime) {
    let Some(Ok(members)) = members(rt.alloc(), NESTED, 40) else {
        panic!(rt; "not made");
    };
    let cases: [(u8, u32, u64, (u64, u64)); 5] = [
        (0, 0, 0, (0x40_1000, 0x40_1030)),
        (1, 1, 12, (0x40_1010, 0x40_1014)),
        (1, 4, 13, (0x40_102c, 0x40_1034)),
        (0, 2, 0, (0x40_1020, 0x40_1030)),
        (1, 3, 21, (0x40_1024, 0x40_1028)),
    ];
    assert_eq!(rt; members.len(), cases.len());
    for (member, (depth, name, line, piece)) in members.iter().zip(cases) {
        assert_eq!(rt; (member.depth, member.line), (depth, line));
        assert_eq!(rt; member.name, Some(NameId(name)));
        assert_eq!(rt; member.pieces.as_slice(), [piece].as_slice());
    }
}
