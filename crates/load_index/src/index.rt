ghost use Rattle.std.specs.Prelude.{◌≡◌, ◌++◌, ◌∷◌, ◌≤◌, [], IfSome, OnErr, OnOk};
ghost use Rattle.sample_model.specs.Moves.{last_load};

use crate::search::{Spanned, last_of};
use refusal::NoMemory;
use sample_model::Load;
use std::alloc::Global;
use std::marker::Model;
use std::mem;

/// How many loads are looked through in the time in which one is indexed, about.
const INDEX_COST: usize = 64;

/// Loads in their order, of which the last one that holds an address is found.
#[derive(Debug, Drop)]
pub struct LoadIndex {
    loads: Vec<Load>,
    /// What the first loads hold.
    spanned: Spanned,
    /// How many loads that are not spanned were looked through since the others were.
    looked: usize,
}

impl Model for LoadIndex {
    ghost use Rattle.std.specs.Prelude.{◌≤◌, List, length, take};
    ghost use Rattle.sample_model.specs.declared.load.Load.{Load};
    ghost use Rattle.load_index.specs.Spans.{IsSpanned};

    ghost Value = { List Load };

    ghost view = { λ index. index.loads.items };

    ghost invariant = { λ index. (index.spanned.count ≤ length index.loads.items)
        × IsSpanned (take index.spanned.count index.loads.items) index.spanned.spans.items
        index.spanned.top };
}

impl LoadIndex {
    /// Without loads.
    pub fn new(alloc: Global) -> LoadIndex
        ensures { result ≡ [] }
    {
        LoadIndex {
            loads: Vec::new(alloc),
            spanned: Spanned::new(alloc),
            looked: 0,
        }
    }

    /// Adds a load behind the others.
    ///
    /// # Errors
    /// `NoMemory`; the loads are then as they were.
    pub fn push(&mut self, load: Load) -> Result<(), NoMemory>
        ensures added { OnOk result (self.new ≡ self.old ++ load ∷ []) }
        ensures err { OnErr result (self.new ≡ self.old) }
    {
        self.loads.push(load)?;
        Ok(())
    }

    /// Says that so many addresses will be looked up before the next load comes. All loads are
    /// indexed for that where it has become worth its cost.
    ///
    /// # Errors
    /// `NoMemory`.
    pub fn prepare(&mut self, look_ups: usize) -> Result<(), NoMemory>
        ensures { self.new ≡ self.old }
    {
        let recent = self.loads.len() - self.spanned.count;
        self.looked = self.looked.saturating_add(recent.saturating_mul(look_ups));
        if self.looked > self.loads.len().saturating_mul(INDEX_COST) {
            self.index()?;
        }
        Ok(())
    }

    /// Indexes all loads. Where memory is refused none is indexed any more.
    fn index(&mut self) -> Result<(), NoMemory>
        ensures { self.new ≡ self.old }
    {
        let alloc = *self.loads.allocator();
        let spanned = mem::replace(&mut self.spanned, Spanned::new(alloc));
        self.spanned = spanned.grown(alloc, &self.loads)?;
        self.looked = 0;
        Ok(())
    }

    /// The last load that holds an address.
    pub fn last(&self, address: u64) -> Option<Load>
        ensures last { result ≡ last_load self.now address }
        ensures holds { IfSome result (λ load. load.start ≤ address) }
    {
        let (spanned, recent) = self.loads.split_at(self.spanned.count);
        match last_of(recent, address) {
            Some(load) => Some(load),
            None => self.spanned.last(spanned, address),
        }
    }
}
