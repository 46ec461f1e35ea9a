// Sums by number.
ghost use Rattle.std.specs.Prelude.{◌≡◌, ◌<◌, ◌≤◌, ◌+◌, ◌==◌, ◌^◌, [], max, length, slice_index, IfOk, OnOk, if◌then◌else◌};
ghost use Rattle.profile_text.specs.Stamps.{ReadsTheSame};
ghost use Rattle.profile_merge.specs.Row.{IsWithSum};

use refusal::NoMemory;
use std::alloc::{AllocError, Global};
use std::marker::Model;

/// A sum for each number, and 0 for those that have none yet.
#[derive(Debug, Drop)]
pub(crate) struct SumRow {
    sums: Vec<u64>,
}

// Clauses see the list of the sums, behind which all are 0.
impl Model for SumRow {
    ghost use Rattle.std.specs.Prelude.{ℕ, List};

    ghost Value = { List ℕ };

    ghost view = { λ a. a.sums.items };
}

impl SumRow {
    /// All sums are 0, and there is room for one.
    pub(crate) fn new(alloc: Global) -> Result<SumRow, AllocError>
        ensures { IfOk result (λ row. row ≡ []) }
    {
        Ok(SumRow {
            sums: Vec::with_capacity(alloc, 1)?,
        })
    }

    /// The sums of so many numbers, each at its own.
    pub(crate) fn padded(&self, alloc: Global, len: u32) -> Result<Vec<u64>, NoMemory>
        requires { length self.now ≤ len }
        ensures len { IfOk result (λ sums. length sums.items ≡ len) }
        ensures reads { IfOk result (λ sums. ReadsTheSame self.now sums.items) }
    {
        let mut sums = Vec::with_capacity(alloc, len as usize)?;
        sums.extend_from_slice(&self.sums)?;
        sums.resize(len as usize, 0)?;
        Ok(sums)
    }

    /// The sums, each at its number.
    pub(crate) fn as_slice(&self) -> &[u64]
        ensures { result.now ≡ self.now }
    {
        &self.sums
    }

    /// The sum of a number.
    pub(crate) fn sum(&self, id: u32) -> u64
        ensures { result ≡ slice_index self.now id }
    {
        match self.sums.get(id as usize) {
            Some(sum) => *sum,
            None => 0,
        }
    }

    /// Makes a place for the sum of a number, so that setting it takes no memory.
    pub(crate) fn reach(&mut self, id: u32) -> Result<(), NoMemory>
        ensures reads { ReadsTheSame self.old self.new }
        ensures reached { OnOk result (id < length self.new) }
        ensures kept { length self.old ≤ length self.new }
        ensures len { length self.new ≤ max (length self.old) (id + 1) }
    {
        let at = id as usize;
        if self.sums.len() <= at {
            self.sums.resize(at + 1, 0)?;
        }
        Ok(())
    }

    /// Sets the sum of a number that has a place.
    pub(crate) fn set(&mut self, id: u32, sum: u64)
        requires { id < length self.old }
        ensures sum { IsWithSum self.old id sum self.new }
        ensures len { length self.new ≡ length self.old }
    {
        self.sums[id as usize] = sum;
    }
}
