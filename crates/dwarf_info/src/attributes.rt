// The attributes of entries: all of a file, and those of one entry, which are lent.
ghost use Rattle.std.specs.Prelude.{◌≡◌, ◌==◌, ◌≤◌, ◌++◌, ◌∷◌, [], find, length, slice_range, OnOk};
ghost use Rattle.dwarf_info.specs.Packed.{all_found, texts_of};

use crate::packed::{Packed, pack, unpack};
use crate::rows::Found;
use refusal::NoMemory;
use std::alloc::Global;
use std::marker::Model;

/// The wanted attributes of all entries, one behind the other, and the texts that stand in entries.
#[derive(Debug, Drop)]
pub(crate) struct AttributeList<'a> {
    pub packed: Vec<Packed>,
    pub texts: Vec<&'a [u8]>,
}

impl<'a> Model for AttributeList<'a> {
    ghost use Rattle.std.specs.Prelude.{List};
    ghost use Rattle.unit_model.specs.Values.{Found};
    ghost use Rattle.dwarf_info.specs.Packed.{AreHeld, all_found, texts_of};

    ghost Value = { List Found };

    ghost view = { λ l. all_found (texts_of l.texts.items) l.packed.items };

    ghost invariant = { λ l. AreHeld (texts_of l.texts.items) l.packed.items };
}

impl<'a> AttributeList<'a> {
    /// No attributes.
    pub fn new(alloc: Global) -> AttributeList<'a>
        ensures { result ≡ [] }
    {
        AttributeList {
            packed: Vec::new(alloc),
            texts: Vec::new(alloc),
        }
    }

    /// How many there are.
    #[tactic(auto, using(crate::proofs::PackedLemmas::list_lemmas))]
    pub fn len(&self) -> usize
        ensures { result ≡ length self.now }
    {
        self.packed.len()
    }

    /// Adds an attribute.
    ///
    /// # Errors
    /// `NoMemory` also where `pack` answers it.
    #[tactic(auto, using(crate::proofs::PackedLemmas::list_lemmas))]
    pub fn push(&mut self, more: Found<'a>) -> Result<(), NoMemory>
        ensures { OnOk result (self.new ≡ self.old ++ more.entry ∷ []) }
    {
        let packed = pack(more, &mut self.texts)?;
        self.packed.push(packed)?;
        Ok(())
    }

    /// Those from a place on, up to another one.
    #[tactic(auto, using(crate::proofs::PackedLemmas::list_lemmas))]
    pub fn slice(&self, first: usize, end: usize) -> Attributes<'a, '_>
        requires order { first ≤ end }
        requires within { end ≤ length self.now }
        ensures { result ≡ slice_range self.now first end }
    {
        Attributes {
            packed: &self.packed[first..end],
            texts: &self.texts,
        }
    }
}

/// The wanted attributes of an entry, in the order of the abbreviation.
#[derive(Debug, Drop)]
pub struct Attributes<'a, 'u> {
    packed: &'u [Packed],
    texts: &'u [&'a [u8]],
}

impl<'a, 'u> Model for Attributes<'a, 'u> {
    ghost use Rattle.std.specs.Prelude.{List};
    ghost use Rattle.unit_model.specs.Values.{Found};
    ghost use Rattle.dwarf_info.specs.Packed.{all_found, texts_of};

    ghost Value = { List Found };

    ghost view = { λ a. all_found (texts_of a.texts.now) a.packed.now };
}

impl<'a, 'u> Attributes<'a, 'u> {
    /// The first attribute of a name, if there is one.
    pub fn of_name(&self, name: u64) -> Option<Found<'a>>
        ensures { result ≡ find (λ other. other.name == name) self.now }
    {
        first_of_name(self.packed, self.texts, name)
    }
}

/// The first of packed attributes that has a name, if one has.
fn first_of_name<'a>(all: &[Packed], texts: &[&'a [u8]], name: u64) -> Option<Found<'a>>
    ensures { result ≡ find (λ other. other.name == name)
        (all_found (texts_of texts.now) all.now) }
{
    for packed in all {
        if packed.name as u64 == name {
            return Some(unpack(*packed, texts));
        }
    }
    None
}
