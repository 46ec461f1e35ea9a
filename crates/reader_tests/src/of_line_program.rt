use byte_view::Part;
use line_program::{Row, rows};
use std::alloc::Global;

/// Whether these bytes are a line program of these rows.
fn gives(alloc: Global, file: &[u8], wanted: &[Row]) -> bool {
    let len = file.len();
    match rows(alloc, Part { file, at: 0, len }, 0) {
        Ok(found) => found.as_slice() == wanted,
        Err(_) => false,
    }
}

fn row(address: u64, line: u32, disc: u32) -> Row {
    Row {
        address,
        line,
        disc,
        ends: false,
    }
}

fn end(address: u64, line: u32) -> Row {
    Row {
        address,
        line,
        disc: 0,
        ends: true,
    }
}

/// Version 4, instructions of 1 byte, special opcodes from 13 on that move the line by -5 to 8; and
/// each opcode, with a `copy` behind most.
const OPCODES: &[u8] = b"\x5f\x00\x00\x00\
    \x04\x00\x14\x00\x00\x00\x01\x01\x01\xfb\x0e\x0d\
    \x00\x01\x01\x01\x01\x00\x00\x00\x01\x00\x00\x01\x00\x00\
    \x01\x02\xb6\x42\x01\x03\x09\x01\x03\x7f\x01\x04\x07\x05\xb6\x42\x06\x07\x01\x08\x01\
    \x09\x34\x12\x01\x0a\x0b\x0c\x05\x01\x00\x03\x04\xb6\x42\x01\
    \x00\x08\x03\x61\x00\x01\x02\x03\x01\x01\x00\x03\x80\x01\x01\x01\
    \x00\x09\x02\x00\x10\x40\x00\x00\x00\x00\x00\x01\x83\x7d\x00\x01\x01";

#[test]
fn each_opcode(rt: HostRuntime) {
    let wanted = [
        row(0, 1, 0),
        row(8502, 1, 0),
        row(8502, 10, 0),
        row(8502, 9, 0),
        row(8502, 9, 0),
        // Special opcode 255: 242 / 14 instructions.
        row(8519, 9, 0),
        row(13179, 9, 0),
        row(13179, 9, 0),
        row(13179, 9, 8502),
        // Bytes that are left over behind an extended opcode add no row.
        row(13179, 9, 0),
        row(0x401000, 9, 0),
        row(0x401008, 10, 0),
        row(0x401010, 5, 0),
        end(0x401010, 5),
    ];
    assert!(rt; gives(rt.alloc(), OPCODES, wanted.as_slice()));
}

/// A special opcode behind headers of versions 2, 4 (with most operations 0) and 5.
const VERSION_2: &[u8] =
    b"\x12\x00\x00\x00\x02\x00\x08\x00\x00\x00\x01\x01\xff\x04\x04\x00\x01\x01\x0e\x00\
    \x01\x01";

const VERSION_4: &[u8] =
    b"\x13\x00\x00\x00\x04\x00\x09\x00\x00\x00\x01\x00\x01\xff\x04\x04\x00\x01\x01\x0e\
    \x00\x01\x01";

const VERSION_5: &[u8] =
    b"\x15\x00\x00\x00\x05\x00\x08\x02\x09\x00\x00\x00\x01\x01\x01\xff\x04\x04\x00\x01\
    \x01\x0e\x00\x01\x01";

#[test]
fn each_version(rt: HostRuntime) {
    let wanted = [row(2, 2, 0), end(2, 2)];
    assert!(rt; gives(rt.alloc(), VERSION_2, wanted.as_slice()));
    assert!(rt; gives(rt.alloc(), VERSION_4, wanted.as_slice()));
    assert!(rt; gives(rt.alloc(), VERSION_5, wanted.as_slice()));
}

/// Instructions of 4 bytes: 2 for a special opcode, 3 for `advance_pc`, none for
/// `fixed_advance_pc`, and (255 - 10) / 4 for `const_add_pc`.
const WIDE_INSTRUCTIONS: &[u8] =
    b"\x21\x00\x00\x00\x03\x00\x0e\x00\x00\x00\x04\x01\xff\x04\x0a\x00\x01\x01\x01\x01\
    \x00\x00\x00\x01\x12\x02\x03\x01\x09\x03\x00\x01\x08\x01\x00\x01\x01";

/// Opcode 13 is not known and has two operands; those of opcode 1 are not asked for.
const UNKNOWN_OPCODE: &[u8] =
    b"\x21\x00\x00\x00\x03\x00\x12\x00\x00\x00\x01\x01\xff\x04\x0e\x03\x01\x01\x01\x01\
    \x00\x00\x00\x01\x00\x00\x01\x02\x0d\x81\x01\x82\x02\x01\x00\x01\x01";

/// Two sequences in 64-bit DWARF, and a byte behind the program.
const TWO_SEQUENCES: &[u8] = b"\xff\xff\xff\xff\x1b\x00\x00\x00\x00\x00\x00\x00\
    \x03\x00\x05\x00\x00\x00\x00\x00\x00\x00\x01\x01\xff\x04\x01\
    \x00\x02\x04\x05\x06\x00\x01\x01\x08\x00\x01\x01\xff";

#[test]
fn fields_of_headers(rt: HostRuntime) {
    let wide = [
        row(8, 0, 0),
        row(20, 0, 0),
        row(23, 0, 0),
        row(267, 0, 0),
        end(267, 0),
    ];
    assert!(rt; gives(rt.alloc(), WIDE_INSTRUCTIONS, wide.as_slice()));
    let unknown = [row(0, 1, 0), end(0, 1)];
    assert!(rt; gives(rt.alloc(), UNKNOWN_OPCODE, unknown.as_slice()));
    let two = [row(1, 1, 5), end(1, 1), row(1, 3, 0), end(1, 3)];
    assert!(rt; gives(rt.alloc(), TWO_SEQUENCES, two.as_slice()));
}
