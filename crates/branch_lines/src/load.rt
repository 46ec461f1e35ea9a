// Load lines: perf's records of what was loaded into memory.
ghost use Rattle.std.specs.Prelude.{◌≡◌, None, Some, MatchOption};
ghost use Rattle.std.specs.Option.{option_copied};
ghost use Rattle.sample_model.specs.Loads as model;

use crate::line::{address, is_comment};
use memchr::memchr;
use std::marker::Model;
use text_scan::{first_blank, first_filled, is_blank};

/// What stands in front of what a load line tells.
const MARK: &'static [u8] = b"PERF_RECORD_MMAP2 ";

/// What a load line tells: `len` addresses from `start` on hold the bytes of the file `name` from
/// `offset` on.
#[derive(Debug, Drop)]
pub struct LoadLine<'a> {
    pub start: u64,
    pub len: u64,
    pub offset: u64,
    pub name: &'a [u8],
}

impl<'a> Model for LoadLine<'a> {
    ghost use Rattle.sample_model.specs.Loads as model;

    ghost Value = { model.LoadLine };

    ghost view = { λ l. record {
      start = l.start;
      len = l.len;
      offset = l.offset;
      name = l.name.now;
    } };
}

/// What a line tells, if it is a load line.
///
/// Source: perf-script(1), `--show-mmap-events`.
#[tactic(auto, unfolding(sample_model::specs::Loads::load_line_of))]
pub fn load_line(line: &[u8]) -> Option<LoadLine<'_>>
    ensures { result ≡ model.load_line_of line.now }
{
    if is_comment(line) {
        return None;
    }
    let process = behind_ending(behind_mark(line)?, b":")?;
    let (addresses, behind) = split_field(process);
    let (start, len) = extent(addresses)?;
    let (offset, behind) = split_field(behind_at(behind)?);
    let offset = file_offset(offset)?;
    let (_, behind) = split_field(behind_ending(behind, b"]:")?);
    let name = name_in(behind)?;
    Some(LoadLine {
        start,
        len,
        offset,
        name,
    })
}

/// What stands behind the first mark of a line.
fn behind_mark(line: &[u8]) -> Option<&[u8]>
    ensures { option_copied result ≡ model.behind_first MARK.now line.now }
{
    let mut rest = line;
    while !rest.is_empty() {
        if let Some(behind) = rest.strip_prefix(MARK) {
            return Some(behind);
        }
        rest = &rest[1..];
    }
    None
}

/// What stands behind the first field that ends in these bytes.
fn behind_ending<'a>(text: &'a [u8], ending: &[u8]) -> Option<&'a [u8]>
    ensures { option_copied result ≡ model.behind_ending ending.now text.now }
{
    let mut rest = text;
    while !rest.is_empty() {
        if let Some(behind) = rest.strip_prefix(ending) {
            if is_field_end(behind) {
                return Some(behind);
            }
        }
        rest = &rest[1..];
    }
    None
}

/// Whether no field goes on at the front of a text.
fn is_field_end(text: &[u8]) -> bool
    ensures { result ≡ model.is_field_end text.now }
{
    match text.first() {
        Some(byte) => is_blank(*byte),
        None => true,
    }
}

/// The first field of a text, which is empty where there is none, and what stands behind it.
fn split_field(text: &[u8]) -> (&[u8], &[u8])
    ensures field { result.0.now ≡ model.first_field text.now }
    ensures behind { result.1.now ≡ model.behind_field text.now }
{
    let text = from_field(text);
    text.split_at(first_blank(text).unwrap_or(text.len()))
}

/// A text without the blanks in front.
fn from_field(text: &[u8]) -> &[u8]
    ensures { result.now ≡ model.from_field text.now }
{
    let (_, behind) = text.split_at(first_filled(text).unwrap_or(text.len()));
    behind
}

/// The addresses of a load, `[0xSTART(0xLEN)`: the first, and how many there are.
#[tactic(auto, unfolding(sample_model::specs::Loads::extent_of))]
fn extent(field: &[u8]) -> Option<(u64, u64)>
    ensures { result ≡ model.extent_of field.now }
{
    let (front, behind) = split_at(field, b'[')?;
    let (start, behind) = split_at(behind, b'(')?;
    let (len, behind) = split_at(behind, b')')?;
    if !front.is_empty() || !behind.is_empty() {
        return None;
    }
    Some((address(start)?, address(len)?))
}

/// What stands before the first place of a byte, and what stands behind it.
fn split_at(text: &[u8], byte: u8) -> Option<(&[u8], &[u8])>
    ensures { MatchOption result (model.parts_at byte text.now ≡ None)
        (λ parts. model.parts_at byte text.now ≡ Some (parts.0.now, parts.1.now)) }
{
    let at = memchr(byte, text)?;
    Some((&text[..at], &text[at + 1..]))
}

/// An offset in a file: `0`, or hexadecimal behind `0x`.
#[tactic(auto, unfolding(sample_model::specs::Loads::offset_of))]
fn file_offset(field: &[u8]) -> Option<u64>
    ensures { result ≡ model.offset_of field.now }
{
    if field == b"0".as_slice() {
        Some(0)
    } else {
        address(field)
    }
}

/// What stands behind the field `@`, where it is the first.
#[tactic(auto, unfolding(sample_model::specs::Loads::behind_at))]
fn behind_at(text: &[u8]) -> Option<&[u8]>
    ensures { option_copied result ≡ model.behind_at text.now }
{
    let (field, behind) = split_field(text);
    if field == b"@".as_slice() {
        Some(behind)
    } else {
        None
    }
}

/// The name that is the rest of a line, where there is one.
#[tactic(auto, unfolding(sample_model::specs::Loads::name_in))]
fn name_in(text: &[u8]) -> Option<&[u8]>
    ensures { option_copied result ≡ model.name_in text.now }
{
    let name = from_field(text);
    if name.is_empty() { None } else { Some(name) }
}
