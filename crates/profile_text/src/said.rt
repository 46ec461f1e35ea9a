// One line of a profile text, read apart from the others.
ghost use Rattle.std.specs.Prelude.{◌≡◌, ◌==◌, ◌≤◌, not, length, map, position, IfOk};
ghost use Rattle.std.specs.Option.{option_map};
ghost use Rattle.profile_model.specs.Reading as model;
ghost use Rattle.profile_text.specs.Said.{meaning_of, pair_of, place_of};

use crate::parts::LineParts;
use key_types::is_name;
use refusal::NoMemory;
use std::alloc::Global;
use text_scan::{decimal, is_blank_line};

/// A function, with a number of it.
#[derive(Clone, Copy, Debug)]
pub(crate) struct Named<'a> {
    pub name: &'a [u8],
    pub times: u64,
}

/// Where a line or a call stands in the function or call above it.
#[derive(Clone, Copy, Debug)]
pub(crate) struct Location {
    pub offset: u16,
    pub disc: u32,
}

/// What a line says. Numbers in front are depths.
#[derive(Drop)]
pub(crate) enum ProfileLine<'a> {
    /// A function, its total and how often it was entered.
    Function(&'a [u8], u64, u64),
    /// A body line, its count and its targets.
    Body(usize, Location, u64, Vec<Named<'a>>),
    /// An inlined call, and its total.
    Call(usize, Location, Named<'a>),
}

/// Whether a line is passed over: it is blank, or a comment.
#[tactic(auto, unfolding(profile_model::specs::Reading::is_passed))]
pub(crate) fn is_passed(line: &[u8]) -> bool
    ensures { result ≡ model.is_passed line.now }
{
    is_blank_line(line) || line[spaces(line)..].starts_with(b"#")
}

/// How many spaces a line begins with.
fn spaces(line: &[u8]) -> usize
    ensures count { result ≡ model.spaces_of line.now }
    ensures within { result ≤ length line.now }
{
    first_other(line).unwrap_or(line.len())
}

/// Where the first byte stands that is no space.
fn first_other(line: &[u8]) -> Option<usize>
    ensures { result ≡ position (λ b. not (b == model.space)) line.now }
{
    line.iter().position(|byte| *byte != b' ')
}

/// What a line says, if it has the form of one.
#[tactic(auto, unfolding(profile_model::specs::Reading::line_of))]
pub(crate) fn read_line(alloc: Global, line: &[u8]) -> Result<Option<ProfileLine<'_>>, NoMemory>
    ensures { IfOk result (λ said. option_map meaning_of said ≡ model.line_of line.now) }
{
    let depth = spaces(line);
    if depth == 0 {
        return Ok(function_line(LineParts::new(line, b':')));
    }
    line_below(alloc, depth, LineParts::new(&line[depth..], b' '))
}

/// `NAME:TOTAL:HEAD`
#[tactic(auto, unfolding(profile_model::specs::Reading::function_of))]
fn function_line(mut parts: LineParts<'_>) -> Option<ProfileLine<'_>>
    ensures { option_map meaning_of result ≡ model.function_of parts.entry }
{
    let name = parts.next()?;
    let total = parts.next()?;
    let head = parts.next()?;
    if parts.next().is_some() {
        return None;
    }
    if !is_name(name) {
        return None;
    }
    Some(ProfileLine::Function(name, number(total)?, number(head)?))
}

/// A line below a function: `OFFSET[.DISC]:`, and what stands behind.
#[tactic(auto, unfolding(profile_model::specs::Reading::line_below))]
fn line_below<'a>(
    alloc: Global,
    depth: usize,
    mut words: LineParts<'a>,
) -> Result<Option<ProfileLine<'a>>, NoMemory>
    ensures { IfOk result (λ said. option_map meaning_of said
        ≡ model.line_below depth words.entry) }
{
    let Some(word) = words.next() else {
        return Ok(None);
    };
    let Some(next) = words.next() else {
        return Ok(None);
    };
    let Some(location) = read_location(word) else {
        return Ok(None);
    };
    match number(next) {
        Some(count) => body_line(alloc, depth, location, count, words),
        None => Ok(call_line(depth, location, next, words)),
    }
}

/// The number that a word is.
#[tactic(auto, unfolding(profile_model::specs::Reading::number_within))]
fn number(digits: &[u8]) -> Option<u64>
    ensures { result ≡ model.number_within 64 digits.now }
{
    decimal(digits).ok()
}

/// The offset that a word is.
#[tactic(auto, unfolding(profile_model::specs::Reading::number_within))]
fn offset_of(digits: &[u8]) -> Option<u16>
    ensures { result ≡ model.number_within 16 digits.now }
{
    match decimal(digits) {
        Ok(offset) if offset < 1 << 16 => Some(offset as u16),
        Ok(_) => None,
        Err(_) => None,
    }
}

/// The discriminator that a word is.
#[tactic(auto, unfolding(profile_model::specs::Reading::number_within))]
fn disc_of(digits: &[u8]) -> Option<u32>
    ensures { result ≡ model.number_within 32 digits.now }
{
    match decimal(digits) {
        Ok(disc) if disc < 1 << 32 => Some(disc as u32),
        Ok(_) => None,
        Err(_) => None,
    }
}

/// `COUNT` was read; behind it stand targets, and nothing else.
fn body_line<'a>(
    alloc: Global,
    depth: usize,
    location: Location,
    count: u64,
    words: LineParts<'a>,
) -> Result<Option<ProfileLine<'a>>, NoMemory>
    ensures { IfOk result (λ said. option_map meaning_of said
        ≡ model.body_by depth (place_of location) count words.entry) }
{
    match targets_of(alloc, words)? {
        Some(targets) => Ok(Some(ProfileLine::Body(depth, location, count, targets))),
        None => Ok(None),
    }
}

/// `CALLEE:COUNT`, word by word.
fn targets_of<'a>(
    alloc: Global,
    mut words: LineParts<'a>,
) -> Result<Option<Vec<Named<'a>>>, NoMemory>
    ensures { IfOk result (λ targets. option_map (λ list. map pair_of list.items) targets
        ≡ model.targets_of words.entry) }
{
    let mut targets = Vec::new(alloc);
    while let Some(word) = words.next() {
        let Some(target) = read_named(word) else {
            return Ok(None);
        };
        targets.push(target)?;
    }
    Ok(Some(targets))
}

/// `CALLEE:TOTAL`, and nothing behind it.
#[tactic(auto, unfolding(profile_model::specs::Reading::call_of))]
fn call_line<'a>(
    depth: usize,
    location: Location,
    word: &'a [u8],
    mut words: LineParts<'a>,
) -> Option<ProfileLine<'a>>
    ensures { option_map meaning_of result
        ≡ model.call_of depth (place_of location) word.now words.entry }
{
    if words.next().is_some() {
        return None;
    }
    Some(ProfileLine::Call(depth, location, read_named(word)?))
}

/// `NAME:NUMBER`
#[tactic(auto, unfolding(profile_model::specs::Reading::named_of))]
fn read_named(word: &[u8]) -> Option<Named<'_>>
    ensures { option_map pair_of result ≡ model.named_of word.now }
{
    let mut parts = LineParts::new(word, b':');
    let name = parts.next()?;
    let digits = parts.next()?;
    if parts.next().is_some() {
        return None;
    }
    if !is_name(name) {
        return None;
    }
    Some(Named {
        name,
        times: number(digits)?,
    })
}

/// `OFFSET[.DISC]:`
#[tactic(auto, unfolding(profile_model::specs::Reading::location_of))]
fn read_location(word: &[u8]) -> Option<Location>
    ensures { option_map place_of result ≡ model.location_of word.now }
{
    let mut parts = LineParts::new(word, b':');
    let location = parts.next()?;
    let behind = parts.next()?;
    if parts.next().is_some() {
        return None;
    }
    if !behind.is_empty() {
        return None;
    }
    located(LineParts::new(location, b'.'))
}

/// `OFFSET[.DISC]`
fn located(mut parts: LineParts<'_>) -> Option<Location>
    ensures { option_map place_of result ≡ model.located_by parts.entry }
{
    let offset = parts.next()?;
    let Some(disc) = parts.next() else {
        return Some(Location {
            offset: offset_of(offset)?,
            disc: 0,
        });
    };
    if parts.next().is_some() {
        return None;
    }
    Some(Location {
        offset: offset_of(offset)?,
        disc: disc_of(disc)?,
    })
}
