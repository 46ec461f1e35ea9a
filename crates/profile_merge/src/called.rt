// Sums of calls.
ghost use Rattle.std.specs.Prelude.{◌≡◌, [], IfOk, OnOk, map};
ghost use Rattle.profile_merge.specs.Called.{AreReached, AreWithSum, IsCalled, called_sum};
ghost use Rattle.profile_merge.specs.Stated.{call_of};

use crowd_watch::{Keyed, Watch};
use indexmap::IndexSet;
use key_types::{KeyId, NameId};
use profile_tree::Call;
use refusal::NoMemory;
use std::alloc::{AllocError, Global};
use std::marker::Model;

/// How often functions were called from keys: a sum for each key and callee, and 0 for those that
/// have none yet.
///
/// The targets stand in a set too, in the same order, by which a sum is found at once.
#[derive(Drop)]
pub(crate) struct CalledSums {
    sums: Vec<((KeyId, NameId), u64)>,
    targets: IndexSet<(KeyId, NameId), Keyed>,
    watch: Watch,
}

// Clauses see the list of the keys and callees with their sums.
impl Model for CalledSums {
    ghost use Rattle.std.specs.Prelude.{◌≡◌, ℕ, List};
    ghost use Rattle.std.specs.Map.{keys_of};
    ghost use Rattle.profile_merge.specs.Called.{Target};

    ghost Value = { List (Target × ℕ) };

    ghost view = { λ a. a.sums.items };

    ghost invariant = { λ a. a.targets.keys ≡ keys_of a.sums.items };
}

impl CalledSums {
    /// All sums are 0, and there is room for one.
    pub(crate) fn new(alloc: Global) -> Result<CalledSums, AllocError>
        ensures { IfOk result (λ called. called ≡ []) }
    {
        Ok(CalledSums {
            sums: Vec::with_capacity(alloc, 1)?,
            targets: IndexSet::with_capacity_and_hasher(alloc, 1, Keyed::by(0))?,
            watch: Watch::new(alloc),
        })
    }

    /// The calls of each key and callee that have a place.
    pub(crate) fn calls(&self, alloc: Global) -> Result<Vec<Call>, NoMemory>
        ensures { IfOk result (λ calls. calls.items ≡ map call_of self.now) }
    {
        let mut calls = Vec::with_capacity(alloc, self.sums.len())?;
        for &((key, callee), times) in &self.sums {
            calls.push(Call { key, callee, times })?;
        }
        Ok(calls)
    }

    /// The sum of a key and a callee.
    pub(crate) fn sum(&self, key: KeyId, callee: NameId) -> u64
        ensures { result ≡ called_sum self.now key callee }
    {
        match self.targets.get_index_of(&(key, callee)) {
            Some(place) => self.sums[place].1,
            None => 0,
        }
    }

    /// Makes a place for the sum of a key and a callee, so that setting it takes no memory.
    pub(crate) fn reach(&mut self, key: KeyId, callee: NameId) -> Result<(), NoMemory>
        ensures same { AreReached self.old self.new key callee }
        ensures reached { OnOk result (IsCalled self.new key callee) }
    {
        let target = (key, callee);
        if !self.targets.contains(&target) {
            self.sums.try_reserve(1)?;
            self.watch.insert(&mut self.targets, target)?;
            self.sums.push_reserved((target, 0));
        }
        Ok(())
    }

    /// Sets the sum of a key and a callee that have a place.
    pub(crate) fn set(&mut self, key: KeyId, callee: NameId, sum: u64)
        requires { IsCalled self.old key callee }
        ensures { AreWithSum self.old self.new key callee sum }
    {
        if let Some(place) = self.targets.get_index_of(&(key, callee)) {
            self.sums[place].1 = sum;
        }
    }
}
