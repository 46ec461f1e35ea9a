// One line of a branch text, read apart from the others.
ghost use Rattle.std.specs.Prelude.{◌≡◌, ◌≤◌, [], vec_capacity};
ghost use Rattle.std.specs.List.{before_first, after_first};
ghost use Rattle.text_model.specs.Fields.{fields_of};
ghost use Rattle.text_model.specs.LineTests.{is_comment as comment};
ghost use Rattle.sample_model.specs.Line as model;
ghost use Rattle.branch_lines.specs.Line.{ReadsEntry, ReadsSample, ReadsLine};

use memchr::{memchr, memmem};
use refusal::Kind;
use text_scan::{Fields, hex, is_blank_line, prefixed};

/// The most bytes of a line, its line feed not counted.
pub const MAX_LINE_BYTES: usize = 65_536;

/// The most branches of one sample.
const MAX_ENTRIES: usize = 1024;

/// How many branches of a sample are kept: one more than it may have, so that it is known to have
/// too many.
pub const MAX_KEPT: usize = MAX_ENTRIES + 1;

/// Reads the branches of a line, newest first, into `branches`, in place of what was there. A line
/// that is no sample has none. How many branches there are in all is for the caller to judge.
///
/// # Errors
/// The cause for which the line is refused, whatever stands before it.
pub fn read_line(line: &[u8], branches: &mut Vec<(u64, u64)>) -> Result<(), Kind>
    requires { MAX_KEPT ≤ vec_capacity branches.old }
    ensures read { ReadsLine line.now result branches.new.items }
    ensures capacity { vec_capacity branches.new ≡ vec_capacity branches.old }
{
    branches.clear();
    if line.len() > MAX_LINE_BYTES {
        return Err(Kind::LineTooLong);
    }
    if !is_sample(line) {
        return Ok(());
    }
    read_sample(line, branches)?;
    if branches.len() > MAX_ENTRIES {
        return Err(Kind::TooManyEntries);
    }
    Ok(())
}

/// Whether a line is a sample: neither blank nor a comment nor one of perf's records of other
/// events.
fn is_sample(line: &[u8]) -> bool
    ensures { result ≡ model.is_sample line.now }
{
    !(is_blank_line(line) || is_comment(line) || is_other_record(line))
}

/// Whether a line begins with `#`.
pub(crate) fn is_comment(line: &[u8]) -> bool
    ensures { result ≡ comment line.now }
{
    line.starts_with(b"#")
}

/// Whether a line is perf's record of another event, which holds `PERF_RECORD_` somewhere.
fn is_other_record(line: &[u8]) -> bool
    ensures { result ≡ model.is_other_record line.now }
{
    memmem::find(line, b"PERF_RECORD_").is_some()
}

/// Appends the branches of a sample: each field has to be an entry but an instruction pointer in
/// front.
fn read_sample(line: &[u8], branches: &mut Vec<(u64, u64)>) -> Result<(), Kind>
    requires empty { branches.old.items ≡ [] }
    requires room { MAX_KEPT ≤ vec_capacity branches.old }
    ensures read { ReadsSample line.now result branches.new.items }
    ensures capacity { vec_capacity branches.new ≡ vec_capacity branches.old }
{
    for field in entry_fields(line) {
        push_entry(field, branches)?;
    }
    Ok(())
}

/// The fields of a sample behind an instruction pointer in front, or all of them.
fn entry_fields(line: &[u8]) -> Fields<'_>
    ensures { result ≡ model.entry_fields (fields_of line.now) }
{
    let mut others = Fields::new(line);
    match others.next() {
        Some(first) if is_ip(first) => others,
        _ => Fields::new(line),
    }
}

/// Appends the branch of a field, which has to be an entry, unless too many are kept already.
fn push_entry(field: &[u8], branches: &mut Vec<(u64, u64)>) -> Result<(), Kind>
    requires { MAX_KEPT ≤ vec_capacity branches.old }
    ensures read { ReadsEntry field.now result branches.old.items branches.new.items }
    ensures capacity { vec_capacity branches.new ≡ vec_capacity branches.old }
{
    let branch = entry(field).ok_or(Kind::BadLine)?;
    if branches.len() < MAX_KEPT {
        branches.push_reserved(branch);
    }
    Ok(())
}

/// The branch of an entry, `FROM/TO` or `FROM/TO/..`.
#[tactic(auto, unfolding(sample_model::specs::Line::entry_of))]
fn entry(field: &[u8]) -> Option<(u64, u64)>
    ensures { result ≡ model.entry_of field.now }
{
    let (from, behind) = split_at_slash(field);
    let (to, _) = split_at_slash(behind);
    Some((address(from)?, address(to)?))
}

/// What stands before the first slash, and what stands behind it.
fn split_at_slash(text: &[u8]) -> (&[u8], &[u8])
    ensures front { result.0.now ≡ before_first model.is_slash text.now }
    ensures back { result.1.now ≡ after_first model.is_slash text.now }
{
    match memchr(b'/', text) {
        Some(slash) => (&text[..slash], &text[slash + 1..]),
        None => (text, &[]),
    }
}

/// An address as an entry has it: hexadecimal behind `0x`, within 64 bits.
pub(crate) fn address(text: &[u8]) -> Option<u64>
    ensures { result ≡ model.address_of text.now }
{
    prefixed(text).ok()
}

/// Whether a field is an instruction pointer: hexadecimal, with or without `0x`.
fn is_ip(field: &[u8]) -> bool
    ensures { result ≡ model.is_ip field.now }
{
    prefixed(field).is_ok() || hex(field).is_ok()
}
