ghost use Rattle.std.specs.Prelude.{◌≡◌, ◌∷◌, ◌<◌, length};
ghost use Rattle.std.specs.Iterator.{item_count, YieldsFirstBy};
ghost use Rattle.text_model.specs.Lines.{lines_of};
ghost use Rattle.text_scan.specs.Lines.{as_numbered, numbered_lines};

use memchr::memchr;
use std::iter::FusedIterator;
use std::marker::Model;

/// A line of a text.
#[derive(Clone, Copy, Debug, PartialEq, Eq)]
pub struct Line<'a> {
    /// Counts from 1.
    pub number: u64,
    /// Without the line feed that ends it.
    pub bytes: &'a [u8],
}

/// The lines of a text that are left, first to last.
///
/// A line ends with a line feed or at the end of the text. An empty rest behind the last line feed
/// is no line. A carriage return is a byte of its line.
#[derive(Drop)]
pub struct Lines<'a> {
    taken: u64,
    rest: &'a [u8],
}

impl<'a> Model for Lines<'a> {
    ghost use Rattle.std.specs.Prelude.{◌+◌, ◌<◌, ◌^◌, ℕ, length, List};
    ghost use Rattle.std.specs.List.{enumerate_from};
    ghost use Rattle.text_model.specs.Lines.{lines_of};

    ghost Value = { List (ℕ × List ℕ) };

    ghost view = { λ a. enumerate_from (a.taken + 1) (lines_of a.rest.now) };

    ghost invariant = { λ a. a.taken + length a.rest.now < 2 ^ 64 };
}

impl<'a> Lines<'a> {
    /// All lines of `text`.
    pub fn new(text: &'a [u8]) -> Lines<'a>
        ensures { result ≡ numbered_lines text.now }
    {
        Lines {
            taken: 0,
            rest: text,
        }
    }
}

impl<'a> Iterator for Lines<'a> {
    type Item = Line<'a>;

    ghost next_gives = { YieldsFirstBy as_numbered (λ left. left) };

    ghost remaining = { item_count (λ left. left) };

    fn next(&mut self) -> Option<Line<'a>> {
        if self.rest.is_empty() {
            return None;
        }
        let (bytes, rest) = split_line(self.rest);
        self.taken += 1;
        self.rest = rest;
        Some(Line {
            number: self.taken,
            bytes,
        })
    }
}

impl<'a> FusedIterator for Lines<'a> {}

/// The first line of `text`, and what stands behind it.
fn split_line(text: &[u8]) -> (&[u8], &[u8])
    requires { 0 < length text.now }
    ensures first { lines_of text.now ≡ result.0.now ∷ lines_of result.1.now }
    ensures shorter { length result.1.now < length text.now }
{
    match memchr(b'\n', text) {
        Some(end) => (&text[..end], &text[end + 1..]),
        None => text.split_at(text.len()),
    }
}
