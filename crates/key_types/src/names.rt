// Names and their numbers.
ghost use Rattle.std.specs.Prelude.{◌≡◌, ◌<◌, ◌≤◌, ◌^◌, ◌+◌, ◌-◌, [], length, slice_get, take, IfOk, OnErr, OnOk, IsOk, Some, IsTrue, ◌↔◌};
ghost use Rattle.key_types.specs.Numbers.{Adds, IsNumbered};

use crate::ids::NameId;
use crowd_watch::{Keyed, Watch};
use indexmap::IndexSet;
use refusal::NoMemory;
use std::alloc::Global;
use std::hash::{Hash, Hasher};
use std::marker::Model;

/// A name as it is hashed: by all its bytes at once.
#[derive(Clone, Copy, Debug, PartialEq, Eq)]
struct Text<'a>(&'a [u8]);

impl Hash for Text<'_> {
    ghost use Rattle.std.proofs.Common.{◌∷◌, [], ap};
    ghost use Rattle.std.specs.Cmp.Lexicographic.{bytes_decides};

    ghost hash_input = { λ text. text.0.now ∷ [] };

    ghost respects_eq = { λ x y same. ap (λ bytes. bytes ∷ []) ((bytes_decides _ _).0 same) };

    fn hash<H: Hasher>(&self, state: &mut H) {
        state.write(self.0);
    }
}

/// Names, each once: a name's number is its place, from 0, in the order in which they were added.
///
/// The names are lent, from a buffer that lives longer.
#[derive(Drop)]
pub struct Names<'a> {
    names: IndexSet<Text<'a>, Keyed>,
    watch: Watch,
}

// Clauses see the list of the names, each at its number. Without names there is
// room for a first one.
impl<'a> Model for Names<'a> {
    ghost use Rattle.std.specs.Prelude.{◌≡◌, ◌<◌, ◌^◌, ℕ, List, length, map};
    ghost use Rattle.indexmap.specs.IndexSet.{spare};

    ghost Value = { List (List ℕ) };

    ghost view = { λ a. map (λ name. name.0.now) a.names.keys };

    ghost invariant = { λ a. (length a.names.keys < 2 ^ 32)
        × (length a.names.keys ≡ 0 → 0 < spare a.names) };
}

impl<'a> Names<'a> {
    /// No names, with room for a first one.
    pub fn new(alloc: Global) -> Result<Names<'a>, NoMemory>
        ensures { IfOk result (λ names. names ≡ []) }
    {
        Ok(Names {
            names: IndexSet::with_capacity_and_hasher(alloc, 1, Keyed::by(0))?,
            watch: Watch::new(alloc),
        })
    }

    /// The number of a name. A new one gets the next number, and those given before stay.
    ///
    /// # Errors
    /// `NoMemory`, never for a first name; the names are then as they were.
    pub fn add(&mut self, name: &'a [u8]) -> Result<NameId, NoMemory>
        requires { length self.old < 2 ^ 32 - 1 }
        ensures added { OnOk result (Adds self.old self.new name.now) }
        ensures number { IfOk result (λ id. slice_get self.new id.0 ≡ Some name.now) }
        ensures given { IfOk result (λ id. id.0 < length self.new) }
        ensures first { self.old ≡ [] → IsOk result }
        ensures unchanged { OnErr result (self.new ≡ self.old) }
        ensures numbered { IsNumbered self.new }
        ensures one_more { length self.new ≤ length self.old + 1 }
    {
        let (index, _) = self.watch.insert(&mut self.names, Text(name))?;
        Ok(NameId(index as u32))
    }

    /// The name of a number that was given.
    pub fn get(&self, id: NameId) -> &'a [u8]
        requires { id.0 < length self.now }
        ensures { slice_get self.now id.0 ≡ Some result.now }
    {
        self.names.as_slice()[id.0 as usize].0
    }

    /// How many names have a number.
    pub fn len(&self) -> u32
        ensures { result ≡ length self.now }
    {
        self.names.len() as u32
    }

    /// No name has two numbers. Nothing is done: this is for a proof that rests on it.
    pub fn each_once(&self)
        ensures { IsNumbered self.now }
    {
        let _len = self.names.len();
    }

    /// Whether no name has a number.
    pub fn is_empty(&self) -> bool
        ensures { IsTrue result ↔ (self.now ≡ []) }
    {
        self.names.is_empty()
    }
}
