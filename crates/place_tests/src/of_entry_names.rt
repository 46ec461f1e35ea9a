use byte_view::Part;
use dwarf_info::{Units, read_units};
use dwarf_strings::Texts;
use entry_facts::{Info, Origins};
use key_types::Names;
use refusal::{Kind, Place, Stop};
use std::alloc::Global;

const NOTHING: Texts<'static> = Texts {
    str: None,
    line_str: None,
    str_offsets: None,
    addr: None,
};

/// Abbreviations up to 56, a unit with entries that lead to others, a unit with a declaration, and
/// a unit of version 2.
const UNITS: &'static [u8] = b"\x01\x11\x01\0\0\
\x02\x2e\0\x03\x08\x3b\x0b\x47\x10\0\0\
\x03\x1d\0\x31\x13\0\0\
\x04\x2e\0\x6e\x08\x3b\x0b\0\0\
\x05\x2e\0\x31\x20\x03\x08\0\0\
\x06\x2e\0\x6e\x25\0\0\
\x07\x0b\0\x03\x08\0\0\0\
\x3a\0\0\0\x04\0\0\0\0\0\x08\
\x01\x03\x11\0\0\0\
\x02f\0\x09\x4a\0\0\0\
\x03\x0d\0\0\0\
\x03\x1e\0\0\0\
\x05\0\0\0\0\0\0\0\0s\0\
\x06\0\
\x07x\0\
\x03\x30\0\0\0\
\x03\x52\0\0\0\0\
\x0e\0\0\0\x04\0\0\0\0\0\x08\x01\
\x04_f\0\x07\0\
\x02\0\0\0\x02\0";

// The units of two sections.
fn read_parts<'a>(alloc: Global, info: Part<'a>, abbrev: Part<'_>) -> Option<Units<'a>> {
    if info.len > 1000 {
        return None;
    }
    match read_units(alloc, Some(info), Some(abbrev)) {
        Ok(units) => Some(units),
        Err(_) => None,
    }
}

// The units of a file, which stand behind its abbreviations from an offset on.
fn read(alloc: Global, file: &[u8], at: usize) -> Option<Units<'_>> {
    if at > file.len() {
        return None;
    }
    let abbrev = Part {
        file,
        at: 0,
        len: at,
    };
    let info = Part {
        file,
        at,
        len: file.len() - at,
    };
    read_parts(alloc, info, abbrev)
}

// The name and the line of the entry at an offset of the units.
fn told<'a>(
    alloc: Global,
    units: &Units<'a>,
    start: usize,
    at: u64,
) -> Option<Result<(Option<&'a [u8]>, u64), Place>> {
    let place = units.entry_at(at)?;
    let entry = units.entry(place)?;
    let Ok(mut names) = Names::new(alloc) else {
        return None;
    };
    let info = Info {
        start,
        units,
        texts: &NOTHING,
    };
    let mut origins = Origins::new(alloc);
    match origins.origin_of(&info, &entry, &mut names) {
        Ok(origin) => match origin.name {
            Some(id) => Some(Ok((Some(names.get(id)), origin.line))),
            None => Some(Ok((None, origin.line))),
        },
        Err(Stop::Refused(place)) => Some(Err(place)),
        Err(Stop::NoMemory) => None,
    }
}

// Whether an origin that is kept is the one that is worked out, at the entry at an offset.
fn kept_is_told(alloc: Global, units: &Units<'_>, start: usize, at: u64) -> Option<bool> {
    let place = units.entry_at(at)?;
    let entry = units.entry(place)?;
    let Ok(mut names) = Names::new(alloc) else {
        return None;
    };
    let mut origins = Origins::new(alloc);
    let info = Info {
        start,
        units,
        texts: &NOTHING,
    };
    let first = origins.origin_of(&info, &entry, &mut names);
    let again = origins.origin_of(&info, &entry, &mut names);
    let mut others = Origins::new(alloc);
    let alone = others.origin_of(&info, &entry, &mut names);
    Some(first == again && first == alone)
}

fn bad(at: u64, kind: Kind) -> Result<(Option<&'static [u8]>, u64), Place> {
    Err(Place { file: 1, at, kind })
}

#[test]
fn takes_the_first_name_and_line_of_a_way(rt: HostRuntime) {
    let Some(units) = read(rt.alloc(), UNITS, 56) else {
        panic!(rt; "not read");
    };
    let cases: [(u64, Result<(Option<&[u8]>, u64), Place>); 8] = [
        (68, Ok((Some(b"_f"), 9))),
        (73, Ok((Some(b"_f"), 9))),
        (81, bad(82, Kind::BadReference)),
        (86, bad(86, Kind::OriginTooLong)),
        (91, Ok((Some(b"s"), 0))),
        (102, bad(103, Kind::NoBase)),
        (107, Ok((None, 0))),
        (112, Ok((None, 0))),
    ];
    for (at, wanted) in cases {
        assert_eq!(rt; told(rt.alloc(), &units, 56, at), Some(wanted));
        assert_eq!(rt; kept_is_told(rt.alloc(), &units, 56, at), Some(true));
    }
}
