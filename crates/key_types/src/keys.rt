// Keys and their numbers.
ghost use Rattle.std.specs.Prelude.{◌≡◌, ◌<◌, ◌≤◌, ◌^◌, ◌+◌, ◌-◌, [], length, slice_get, IfOk, OnErr, OnOk, IsOk, Some, IsTrue, ◌↔◌};
ghost use Rattle.key_types.specs.Numbers.{Adds, IsNumbered};

use crate::ids::KeyId;
use crate::key::Key;
use crowd_watch::{Keyed, Watch};
use indexmap::IndexSet;
use refusal::NoMemory;
use std::alloc::Global;
use std::marker::Model;

/// Keys, each once: a key's number is its place, from 0, in the order in which they were added.
#[derive(Drop)]
pub struct Keys {
    keys: IndexSet<Key, Keyed>,
    watch: Watch,
}

// Clauses see the list of the keys, each at its number. Without keys there is
// room for a first one.
impl Model for Keys {
    ghost use Rattle.std.specs.Prelude.{◌≡◌, ◌<◌, ◌^◌, ℕ, List, length};
    ghost use Rattle.indexmap.specs.IndexSet.{spare};
    ghost use Rattle.key_types.specs.declared.key.Key.{Key};

    ghost Value = { List Key };

    ghost view = { λ a. a.keys.keys };

    ghost invariant = { λ a. (length a.keys.keys < 2 ^ 32)
        × (length a.keys.keys ≡ 0 → 0 < spare a.keys) };
}

impl Keys {
    /// No keys, with room for a first one.
    pub fn new(alloc: Global) -> Result<Keys, NoMemory>
        ensures { IfOk result (λ keys. keys ≡ []) }
    {
        Ok(Keys {
            keys: IndexSet::with_capacity_and_hasher(alloc, 1, Keyed::by(0))?,
            watch: Watch::new(alloc),
        })
    }

    /// Makes room for so many keys more, so that the table is not laid out anew as they come. Where
    /// there is no memory for that, it grows as they come.
    pub fn reserve(&mut self, more: usize)
        ensures { self.new ≡ self.old }
    {
        let _ = self.keys.reserve(more);
    }

    /// The number of a key. A new one gets the next number, and those given before stay.
    ///
    /// # Errors
    /// `NoMemory`, never for a first key; the keys are then as they were.
    pub fn add(&mut self, key: Key) -> Result<KeyId, NoMemory>
        requires { length self.old < 2 ^ 32 - 1 }
        ensures added { OnOk result (Adds self.old self.new key) }
        ensures number { IfOk result (λ id. slice_get self.new id.0 ≡ Some key) }
        ensures given { IfOk result (λ id. id.0 < length self.new) }
        ensures first { self.old ≡ [] → IsOk result }
        ensures unchanged { OnErr result (self.new ≡ self.old) }
        ensures numbered { IsNumbered self.new }
        ensures one_more { length self.new ≤ length self.old + 1 }
    {
        let (index, _) = self.watch.insert(&mut self.keys, key)?;
        Ok(KeyId(index as u32))
    }

    /// The key of a number that was given.
    pub fn get(&self, id: KeyId) -> &Key
        requires { id.0 < length self.now }
        ensures { slice_get self.now id.0 ≡ Some result.now }
    {
        &self.keys.as_slice()[id.0 as usize]
    }

    /// How many keys have a number.
    pub fn len(&self) -> u32
        ensures { result ≡ length self.now }
    {
        self.keys.len() as u32
    }

    /// No key has two numbers. Nothing is done: this is for a proof that rests on it.
    pub fn each_once(&self)
        ensures { IsNumbered self.now }
    {
        let _len = self.keys.len();
    }

    /// Whether no key has a number.
    pub fn is_empty(&self) -> bool
        ensures { IsTrue result ↔ (self.now ≡ []) }
    {
        self.keys.is_empty()
    }
}
