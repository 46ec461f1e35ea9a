// The section `.debug_line`.
ghost use Rattle.std.specs.Prelude.{◌≡◌, ◌++◌, ◌<◌, ◌≤◌, ◌^◌, ◌≤ℤ◌, neg_ℤ, ◌+◌, ◌*◌, pos, length, OnOk};
ghost use Rattle.case_model.specs.Line.{debug_line, extended, header_fields, sequence, special};

use crate::bytes::{push_u16, push_u32};
use crate::dwarf::*;
use crate::function::{MAX_FUNCTIONS, address};
use refusal::NoMemory;

/// What a special opcode adds to the line at least, how many such steps there are, and the number
/// of the first special opcode.
const LINE_BASE: i8 = -5;

const LINE_RANGE: u8 = 14;

const OPCODE_BASE: u8 = 13;

/// How many operands each standard opcode has.
const OPCODE_LENGTHS: [u8; 12] = [0, 1, 1, 1, 1, 0, 0, 0, 1, 0, 0, 1];

/// How many bytes the section has for `n` functions.
#[tactic(auto, using(crate::proofs::Sizes::section_sizes))]
pub fn line_size(n: u64) -> u64
    requires { n ≤ MAX_FUNCTIONS }
    ensures is { result ≡ length (debug_line n) }
    ensures small { result < 2 ^ 20 }
{
    4 + u64::from(length_field(n))
}

/// How many of them stand behind the length field.
fn length_field(n: u64) -> u32
    requires { n ≤ MAX_FUNCTIONS }
    ensures { result ≡ 26 + 27 * n }
{
    26 + 27 * n as u32
}

/// Appends the section: one line program with a sequence for each function.
pub fn push_line(out: &mut Vec<u8>, n: u64) -> Result<(), NoMemory>
    requires { n ≤ MAX_FUNCTIONS }
    ensures { OnOk result (out.new.items ≡ out.old.items ++ debug_line n) }
{
    push_u32(out, length_field(n))?;
    // Version 4, and the length of the header behind that length.
    push_u16(out, 4)?;
    push_u32(out, 20)?;
    push_header_fields(out)?;
    for k in 0..n {
        push_sequence(out, k)?;
    }
    Ok(())
}

/// Appends the header behind its length: instructions of 1 byte, one operation each, each row a
/// statement; how opcodes are packed; no folders and no files.
#[tactic(auto, unfolding(case_model::specs::Line::header_fields))]
fn push_header_fields(out: &mut Vec<u8>) -> Result<(), NoMemory>
    ensures { OnOk result (out.new.items ≡ out.old.items ++ header_fields) }
{
    out.extend_from_slice(&[1, 1, 1, LINE_BASE.cast_unsigned(), LINE_RANGE, OPCODE_BASE])?;
    out.extend_from_slice(&OPCODE_LENGTHS)?;
    out.extend_from_slice(&[0, 0])?;
    Ok(())
}

/// Appends the sequence of function `k`: lines 10, 11, 6, 12 with discriminator 2, and 13.
#[tactic(auto, unfolding(case_model::specs::Line::sequence, case_model::specs::Bytes::u64_bytes))]
fn push_sequence(out: &mut Vec<u8>, k: u64) -> Result<(), NoMemory>
    requires { k < MAX_FUNCTIONS }
    ensures { OnOk result (out.new.items ≡ out.old.items ++ sequence k) }
{
    push_extended(out, DW_LNE_SET_ADDRESS, &address(k).to_le_bytes())?;
    out.extend_from_slice(&[
        DW_LNS_ADVANCE_LINE,
        9,
        DW_LNS_COPY,
        special(1, 8),
        special(-5, 8),
    ])?;
    push_extended(out, DW_LNE_SET_DISCRIMINATOR, &[2])?;
    out.extend_from_slice(&[special(6, 16), special(1, 16), DW_LNS_ADVANCE_PC, 16])?;
    push_extended(out, DW_LNE_END_SEQUENCE, &[])?;
    Ok(())
}

/// Appends an extended opcode: a zero, the length of what follows, the opcode and its operands.
#[tactic(auto, unfolding(case_model::specs::Line::extended))]
fn push_extended(out: &mut Vec<u8>, opcode: u8, operands: &[u8]) -> Result<(), NoMemory>
    requires { length operands.now < 127 }
    ensures { OnOk result (out.new.items ≡ out.old.items ++ extended opcode operands.now) }
{
    out.extend_from_slice(&[0, operands.len() as u8 + 1, opcode])?;
    out.extend_from_slice(operands)?;
    Ok(())
}

/// The special opcode that adds so much to the line and to the address.
fn special(lines: i8, bytes: u8) -> u8
    requires low { neg_ℤ (pos 5) ≤ℤ lines }
    requires high { lines ≤ℤ pos 8 }
    requires near { bytes ≤ 16 }
    ensures { result ≡ special lines bytes }
{
    (lines - LINE_BASE) as u8 + LINE_RANGE * bytes + OPCODE_BASE
}
