use byte_view::Part;
use dwarf_forms::Value;
use dwarf_info::{Units, read_units};
use refusal::Stop;
use std::alloc::Global;

// The units of a file that begins with its abbreviations.
fn read(alloc: Global, file: &[u8], info: usize) -> Result<Units<'_>, Stop> {
    let at = info.min(file.len()).min(1000);
    let len = (file.len() - at).min(1000);
    let abbrev = Part {
        file,
        at: 0,
        len: at,
    };
    read_units(alloc, Some(Part { file, at, len }), Some(abbrev))
}

/// Attributes whose values take no bytes, of which one is not wanted and one stands there before.
const WITHOUT_BYTES: &[u8] =
    b"\x01\x2e\x00\x3b\x21\x05\x3f\x19\x3b\x21\x06\x3b\x0b\x59\x21\x03\x03\x08\x00\x00\x00\
    \x0b\x00\x00\x00\x04\x00\x00\x00\x00\x00\x08\x01\x07h\x00";

const FOUND: [(u64, u64, Value<'static>); 3] = [
    (0x3b, 33, Value::Const(5)),
    (0x59, 34, Value::Const(3)),
    (0x03, 34, Value::Text(b"h")),
];

#[test]
fn of_attributes_without_bytes_the_first_counts(rt: HostRuntime) {
    let Ok(units) = read(rt.alloc(), WITHOUT_BYTES, 21) else {
        panic!(rt; "not read");
    };
    let Some(entry) = units.entry(0) else {
        panic!(rt; "no entry");
    };
    for (name, at, value) in FOUND {
        let Some(found) = entry.found.of_name(name) else {
            panic!(rt; "not found");
        };
        assert_eq!(rt; (found.name, found.at), (name, at));
        assert_eq!(rt; found.value, value);
    }
    assert!(rt; entry.found.of_name(0x3f).is_none());
}

/// A unit of version 5, a type unit, one of version 2, one of length 0, and one of 64-bit DWARF.
const UNITS: &[u8] = b"\x01\x11\x00\x13\x0b\x00\x00\x00\
    \x0a\x00\x00\x00\x05\x00\x01\x08\x00\x00\x00\x00\x01\x07\
    \x03\x00\x00\x00\x05\x00\x02\
    \x02\x00\x00\x00\x02\x00\
    \x00\x00\x00\x00\
    \xff\xff\xff\xff\x0d\x00\x00\x00\x00\x00\x00\x00\
    \x04\x00\x00\x00\x00\x00\x00\x00\x00\x00\x08\x01\x07";

const READ: [(u64, u64, u16, bool); 2] = [(8, 22, 5, false), (39, 64, 4, true)];

const SKIPPED: [(u64, u64); 3] = [(22, 29), (29, 35), (35, 39)];

#[test]
fn reads_or_passes_over_units(rt: HostRuntime) {
    let Ok(units) = read(rt.alloc(), UNITS, 8) else {
        panic!(rt; "not read");
    };
    assert_eq!(rt; units.units().len(), 2);
    for (unit, read) in units.units().iter().zip(READ) {
        assert_eq!(rt; (unit.at, unit.end, unit.version, unit.wide), read);
    }
    assert_eq!(rt; units.skipped(), SKIPPED.as_slice());
}
