// The parts of a text.
ghost use Rattle.std.specs.Prelude.{◌≡◌, ◌∷◌};
ghost use Rattle.std.specs.Iterator.{item_count, YieldsFirstRef};
ghost use Rattle.profile_model.specs.Reading.{parts_at};
ghost use Rattle.profile_text.specs.Parts.{parts_left};

use memchr::memchr;
use std::iter::FusedIterator;
use std::marker::Model;

/// The parts of a text that are left, from left to right: what stands between bytes of one value.
#[derive(Drop)]
pub(crate) struct LineParts<'a> {
    byte: u8,
    rest: Option<&'a [u8]>,
}

impl<'a> Model for LineParts<'a> {
    ghost use Rattle.std.specs.Prelude.{ℕ, List};
    ghost use Rattle.profile_text.specs.Parts.{parts_left};

    ghost Value = { List (List ℕ) };

    ghost view = { λ a. parts_left a.byte a.rest };
}

impl<'a> LineParts<'a> {
    /// All parts of `text` between bytes of this value.
    pub(crate) fn new(text: &'a [u8], byte: u8) -> LineParts<'a>
        ensures { result ≡ parts_at byte text.now }
    {
        LineParts {
            byte,
            rest: Some(text),
        }
    }
}

impl<'a> Iterator for LineParts<'a> {
    type Item = &'a [u8];

    ghost next_gives = { YieldsFirstRef (λ left. left) };

    ghost remaining = { item_count (λ left. left) };

    fn next(&mut self) -> Option<&'a [u8]> {
        let (part, rest) = split_part(self.rest?, self.byte);
        self.rest = rest;
        Some(part)
    }
}

impl<'a> FusedIterator for LineParts<'a> {}

/// The first part of `text`, and what stands behind the byte that ends it.
fn split_part(text: &[u8], byte: u8) -> (&[u8], Option<&[u8]>)
    ensures { parts_at byte text.now ≡ result.0.now ∷ parts_left byte result.1 }
{
    match memchr(byte, text) {
        Some(end) => (&text[..end], Some(&text[end + 1..])),
        None => (text, None),
    }
}
