use elf_sections::read;
use line_program::Row;
use row_table::{RowData, RowTable};
use std::test;

// A file whose one segment is code from 0x1000 up to 0x2000.
const FILE: &[u8; 120] = b"\x7fELF\x02\x01\x01\0\0\0\0\0\0\0\0\0\
    \x02\0\x3e\0\x01\0\0\0\0\0\0\0\0\0\0\0\x40\0\0\0\0\0\0\0\0\0\0\0\0\0\0\0\
    \0\0\0\0\x40\0\x38\0\x01\0\x40\0\0\0\0\0\
    \x01\0\0\0\x05\0\0\0\0\0\0\0\0\0\0\0\0\x10\0\0\0\0\0\0\0\x10\0\0\0\0\0\0\
    \0\0\0\0\0\0\0\0\0\x10\0\0\0\0\0\0\0\x10\0\0\0\0\0\0";

fn row(address: u64, line: u32) -> Row {
    Row {
        address,
        line,
        disc: 7,
        ends: false,
    }
}

fn end(address: u64) -> Row {
    Row {
        address,
        line: 1,
        disc: 0,
        ends: true,
    }
}

#[test]
fn the_first_live_sequence_counts(rt: HostRuntime) -> Result<(), test::Fail> {
    let alloc = rt.alloc();
    let elf = read(alloc, FILE)?;
    let rows = [
        // Not code, falling, and without rows.
        row(0x10, 1),
        end(0x20),
        row(0x1010, 2),
        row(0x1000, 3),
        end(0x1020),
        end(0x1004),
        // Live: with two rows at one address, and one that lies over it and reaches further.
        row(0x1010, 4),
        row(0x1018, 5),
        row(0x1018, 6),
        end(0x1020),
        row(0x1000, 8),
        row(0x101c, 9),
        end(0x1030),
    ];
    let table = RowTable::make(alloc, &rows, &elf)?;
    let cases = [
        (0xfff, None),
        (0x1000, Some(8)),
        (0x100f, Some(8)),
        (0x1010, Some(4)),
        (0x1018, Some(6)),
        (0x101f, Some(6)),
        (0x1020, Some(9)),
        (0x102f, Some(9)),
        (0x1030, None),
    ];
    for (address, line) in cases {
        let want = line.map(|line| RowData { line, disc: 7 });
        assert_eq!(rt; table.row_at(address), want, "at {address:x}");
    }
    let cuts: [u64; 6] = [0x1000, 0x1010, 0x1018, 0x101c, 0x1020, 0x1030];
    assert_eq!(rt; table.cuts(), cuts.as_slice());
    Ok(())
}
