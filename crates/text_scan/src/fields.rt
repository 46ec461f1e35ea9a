ghost use Rattle.std.specs.Prelude.{not, position, ◌≡◌, ◌∷◌, [], MatchOption};
ghost use Rattle.std.specs.Iterator.{item_count, YieldsFirstRef};
ghost use Rattle.text_model.specs.Fields.{fields_of, is_blank};
ghost use Rattle.text_model.specs.LineTests.{is_blank_line};

use std::iter::FusedIterator;
use std::marker::Model;

/// The fields of a line that are left, from left to right.
///
/// A field is a longest run of bytes other than space and tab. Every other byte, a carriage return
/// too, is a byte of its field.
#[derive(Drop)]
pub struct Fields<'a> {
    rest: &'a [u8],
}

impl<'a> Model for Fields<'a> {
    ghost use Rattle.std.specs.Prelude.{ℕ, List};
    ghost use Rattle.text_model.specs.Fields.{fields_of};

    ghost Value = { List (List ℕ) };

    ghost view = { λ a. fields_of a.rest.now };
}

impl<'a> Fields<'a> {
    /// All fields of `line`.
    pub fn new(line: &'a [u8]) -> Fields<'a>
        ensures { result ≡ fields_of line.now }
    {
        Fields { rest: line }
    }
}

impl<'a> Iterator for Fields<'a> {
    type Item = &'a [u8];

    ghost next_gives = { YieldsFirstRef (λ left. left) };

    ghost remaining = { item_count (λ left. left) };

    fn next(&mut self) -> Option<&'a [u8]> {
        let (field, rest) = split_field(self.rest)?;
        self.rest = rest;
        Some(field)
    }
}

impl<'a> FusedIterator for Fields<'a> {}

/// The first field of `line`, and what stands behind it.
fn split_field(line: &[u8]) -> Option<(&[u8], &[u8])>
    ensures { MatchOption result (fields_of line.now ≡ [])
        (λ parts. fields_of line.now ≡ parts.0.now ∷ fields_of parts.1.now) }
{
    let line = &line[first_filled(line)?..];
    let end = first_blank(line).unwrap_or(line.len());
    Some(line.split_at(end))
}

/// Whether a line has no field.
pub fn is_blank_line(line: &[u8]) -> bool
    ensures { result ≡ is_blank_line line.now }
{
    Fields::new(line).next().is_none()
}

/// Whether a byte stands between fields: a space or a tab.
pub fn is_blank(byte: u8) -> bool
    ensures { result ≡ is_blank byte }
{
    byte == b' ' || byte == b'\t'
}

/// Where the first field begins.
pub fn first_filled(line: &[u8]) -> Option<usize>
    ensures { result ≡ position (λ b. not (is_blank b)) line.now }
{
    line.iter().position(|byte| !is_blank(*byte))
}

/// Where the first blank stands.
pub fn first_blank(line: &[u8]) -> Option<usize>
    ensures { result ≡ position is_blank line.now }
{
    line.iter().position(|byte| is_blank(*byte))
}
