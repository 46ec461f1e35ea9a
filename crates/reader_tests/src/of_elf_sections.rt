// The small file whole.
mod small_file;

use elf_sections::read;
use small_file::SMALL_FILE;

/// The extents of its sections; the empty name is that of header 0, which is no section.
const SECTIONS: [(&[u8], Option<(usize, usize)>); 5] = [
    (b".debug_abbrev", Some((120, 46))),
    (b".debug_info", Some((166, 63))),
    (b".debug_line", Some((229, 57))),
    (b".debug_inf", None),
    (b"", None),
];

#[test]
fn finds_sections(rt: HostRuntime) {
    let Ok(elf) = read(rt.alloc(), &SMALL_FILE) else {
        panic!(rt; "not read");
    };
    for (name, extent) in SECTIONS {
        let Ok(found) = elf.section(name) else {
            panic!(rt; "refused");
        };
        assert_eq!(rt; found.map(|part| (part.at, part.len)), extent);
    }
}

/// Ranges, and whether they are of code.
const RANGES: [(u64, u64, bool); 5] = [
    (0x401000, 0x401040, true),
    (0x401000, 0x401041, false),
    (0x400fff, 0x401040, false),
    (0x401010, 0x401010, false),
    (0, 1, false),
];

#[test]
fn knows_the_ranges_of_code(rt: HostRuntime) {
    let Ok(elf) = read(rt.alloc(), &SMALL_FILE) else {
        panic!(rt; "not read");
    };
    for (lo, hi, runs) in RANGES {
        assert_eq!(rt; elf.runs(lo, hi), runs);
    }
}
