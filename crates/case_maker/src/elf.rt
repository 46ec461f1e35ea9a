// The binary: headers, sections, and where they stand.
ghost use Rattle.std.specs.Prelude.{◌≡◌, ◌++◌, ◌<◌, ◌≤◌, ◌^◌, OnOk};
ghost use Rattle.case_model.specs.Elf.{binary, count_fields, empty_header, file_header, headers_at, line_at, program_fields, program_header, section_header, section_headers, shstrtab, shstrtab_at};

use crate::abbrev::{ABBREV_SIZE, push_abbrev};
use crate::bytes::{push_u16, push_u32, push_u64};
use crate::function::{FIRST_ADDRESS, FUNCTION_SIZE, MAX_FUNCTIONS};
use crate::info::{info_size, push_info};
use crate::line::{line_size, push_line};
use refusal::NoMemory;

/// The names of the sections, that of section 0 first, each with a NUL behind it.
const NAMES: &'static [u8] = b"\0.debug_abbrev\0.debug_info\0.debug_line\0.shstrtab\0";

const NAMES_SIZE: u64 = 49;

/// Where the first sections begin: behind the file header and the program header.
const ABBREV_AT: u64 = 64 + 56;

const INFO_AT: u64 = ABBREV_AT + ABBREV_SIZE;

const ET_EXEC: u16 = 2;

const EM_X86_64: u16 = 62;

const PT_LOAD: u32 = 1;

const PF_R_X: u32 = 5;

const SHT_PROGBITS: u32 = 1;

const SHT_STRTAB: u32 = 3;

/// Appends the binary of `n` functions.
#[tactic(auto, unfolding(case_model::specs::Elf::binary))]
pub fn push_binary(out: &mut Vec<u8>, n: u64) -> Result<(), NoMemory>
    requires { n ≤ MAX_FUNCTIONS }
    ensures { OnOk result (out.new.items ≡ out.old.items ++ binary n) }
{
    push_file_header(out, n)?;
    push_program_header(out, n)?;
    push_abbrev(out)?;
    push_info(out, n)?;
    push_line(out, n)?;
    out.extend_from_slice(NAMES)?;
    push_section_headers(out, n)?;
    Ok(())
}

/// Where `.debug_line` begins.
#[tactic(auto, using(crate::proofs::Sizes::section_sizes))]
fn line_at(n: u64) -> u64
    requires { n ≤ MAX_FUNCTIONS }
    ensures is { result ≡ line_at n }
    ensures small { result < 2 ^ 24 }
{
    INFO_AT + info_size(n)
}

/// Where `.shstrtab` begins.
#[tactic(auto, using(crate::proofs::Sizes::section_sizes))]
fn names_at(n: u64) -> u64
    requires { n ≤ MAX_FUNCTIONS }
    ensures is { result ≡ shstrtab_at n }
    ensures small { result < 2 ^ 24 }
{
    line_at(n) + line_size(n)
}

/// Where the section headers begin.
#[tactic(auto, using(crate::proofs::Sizes::section_sizes))]
fn headers_at(n: u64) -> u64
    requires { n ≤ MAX_FUNCTIONS }
    ensures is { result ≡ headers_at n }
    ensures small { result < 2 ^ 24 }
{
    names_at(n) + NAMES_SIZE
}

/// Appends the file header: 64 bits, little endian, and what follows.
#[tactic(auto, unfolding(case_model::specs::Elf::file_header, case_model::specs::Elf::e_ident))]
fn push_file_header(out: &mut Vec<u8>, n: u64) -> Result<(), NoMemory>
    requires { n ≤ MAX_FUNCTIONS }
    ensures { OnOk result (out.new.items ≡ out.old.items ++ file_header n) }
{
    out.extend_from_slice(b"\x7fELF\x02\x01\x01\0\0\0\0\0\0\0\0\0")?;
    push_program_fields(out)?;
    push_u64(out, 64)?;
    push_u64(out, headers_at(n))?;
    push_count_fields(out)?;
    Ok(())
}

/// Appends what the program is: an executable for x86-64, of version 1, without an entry point.
#[tactic(auto, unfolding(case_model::specs::Elf::program_fields))]
fn push_program_fields(out: &mut Vec<u8>) -> Result<(), NoMemory>
    ensures { OnOk result (out.new.items ≡ out.old.items ++ program_fields) }
{
    push_u16(out, ET_EXEC)?;
    push_u16(out, EM_X86_64)?;
    push_u32(out, 1)?;
    push_u64(out, 0)?;
    Ok(())
}

/// Appends the sizes and counts of the headers: no flags; this header; one program header; five
/// section headers, of which the last has the names.
#[tactic(auto, unfolding(case_model::specs::Elf::count_fields))]
fn push_count_fields(out: &mut Vec<u8>) -> Result<(), NoMemory>
    ensures { OnOk result (out.new.items ≡ out.old.items ++ count_fields) }
{
    push_u32(out, 0)?;
    push_u16(out, 64)?;
    push_u16(out, 56)?;
    push_u16(out, 1)?;
    push_u16(out, 64)?;
    push_u16(out, 5)?;
    push_u16(out, 4)?;
    Ok(())
}

/// Appends the program header: a segment of code that holds the functions, without bytes of its
/// own.
#[tactic(auto, unfolding(case_model::specs::Elf::program_header))]
fn push_program_header(out: &mut Vec<u8>, n: u64) -> Result<(), NoMemory>
    requires { n ≤ MAX_FUNCTIONS }
    ensures { OnOk result (out.new.items ≡ out.old.items ++ program_header n) }
{
    push_u32(out, PT_LOAD)?;
    push_u32(out, PF_R_X)?;
    push_u64(out, 0)?;
    push_u64(out, FIRST_ADDRESS)?;
    push_u64(out, FIRST_ADDRESS)?;
    push_u64(out, 0)?;
    push_u64(out, FUNCTION_SIZE * n)?;
    push_u64(out, 0x1000)?;
    Ok(())
}

/// Appends the five section headers, the first of them all zeros.
fn push_section_headers(out: &mut Vec<u8>, n: u64) -> Result<(), NoMemory>
    requires { n ≤ MAX_FUNCTIONS }
    ensures { OnOk result (out.new.items ≡ out.old.items ++ section_headers n) }
{
    push_empty_header(out)?;
    push_section_header(out, 1, SHT_PROGBITS, ABBREV_AT, ABBREV_SIZE)?;
    push_section_header(out, 15, SHT_PROGBITS, INFO_AT, info_size(n))?;
    push_section_header(out, 27, SHT_PROGBITS, line_at(n), line_size(n))?;
    push_section_header(out, 39, SHT_STRTAB, names_at(n), NAMES_SIZE)?;
    Ok(())
}

/// Appends the section header of index 0.
#[tactic(auto, unfolding(case_model::specs::Elf::empty_header))]
fn push_empty_header(out: &mut Vec<u8>) -> Result<(), NoMemory>
    ensures { OnOk result (out.new.items ≡ out.old.items ++ empty_header) }
{
    out.extend_from_slice(&[0; 64])?;
    Ok(())
}

/// Appends a section header: the place of its name, its type, its offset and its size; no flags,
/// address, link, info and entries; aligned to 1 byte.
#[tactic(auto, unfolding(case_model::specs::Elf::section_header))]
fn push_section_header(
    out: &mut Vec<u8>,
    name: u32,
    kind: u32,
    offset: u64,
    size: u64,
) -> Result<(), NoMemory>
    ensures { OnOk result (out.new.items ≡ out.old.items ++ section_header name kind offset size) }
{
    push_u32(out, name)?;
    push_u32(out, kind)?;
    push_u64(out, 0)?;
    push_u64(out, 0)?;
    push_u64(out, offset)?;
    push_u64(out, size)?;
    push_u32(out, 0)?;
    push_u32(out, 0)?;
    push_u64(out, 1)?;
    push_u64(out, 0)?;
    Ok(())
}
