// Numbers of profile texts, summed with weights.
ghost use Rattle.std.specs.Prelude.{◌≡◌, ◌↔◌, ◌≤◌, ◌+◌, ◌*◌, ◌^◌, ◌<◌, ℕ, None, [], All, IfOk, IsNone, OnErr, OnOk, length, map};
ghost use Rattle.profile_model.specs.Profile.{lines_of};
ghost use Rattle.profile_text.specs.Draft.{IsGivenWhat};
ghost use Rattle.profile_merge.specs.Sums.{AddsPart, AreSameSums, AreSumsOf, HasPlace, HavePlaces, IsWithSum, JudgesItems, KeepsPlaces, StaySumsOf, TellOnce, first_over, sum_in};
ghost use Rattle.profile_merge.specs.Told.{sums_told};
ghost use Rattle.profile_tree.specs.Known.{HasNames};
ghost use Rattle.profile_tree.specs.Told.{IsOf, told};
ghost use Rattle.profile_merge.specs.declared.sums.MergeStop.TheVariants.{NoMemory as no_memory};

use crate::called::CalledSums;
use crate::row::SumRow;
use crate::stated::heads_of;
use key_types::{Keys, Names};
use profile_text::{Item, Profile, What};
use profile_tree::{Numbers, Tree, tree_of};
use refusal::NoMemory;
use std::alloc::Global;
use std::marker::Model;

/// Why a profile was not added.
#[derive(Clone, Copy, Debug, PartialEq, Eq)]
pub enum MergeStop {
    /// A number on this line is too large: so many times it, added to the sum of those before,
    /// would pass 2^64 - 1.
    CountTooLarge(u64),
    /// Memory was refused.
    NoMemory,
}

impl From<NoMemory> for MergeStop {
    ghost from_gives = { λ _ stop. stop ≡ no_memory };

    fn from(_: NoMemory) -> Self {
        MergeStop::NoMemory
    }
}

/// The sums of the numbers of profile texts, each with its weight: one for each head, each key and
/// each target of a key, and 0 for those of which nothing was told.
// Why: Heads and counts stand in lists by number, 8 bytes each; only calls have an index. A file is
// judged before a sum moves.
#[derive(Drop)]
pub struct Sums {
    heads: SumRow,
    counts: SumRow,
    called: CalledSums,
}

// Clauses see the lists of the sums.
impl Model for Sums {
    ghost use Rattle.profile_merge.specs.Sums as model;

    ghost Value = { model.Sums };

    ghost view = { λ s. record { heads = s.heads; counts = s.counts; called = s.called } };
}

impl Sums {
    /// All sums are 0, and there is room for a first one of each kind.
    ///
    /// # Errors
    /// `NoMemory`.
    pub fn new(alloc: Global) -> Result<Sums, NoMemory>
        ensures { IfOk result (λ sums.
            (sums.heads ≡ []) × (sums.counts ≡ []) × (sums.called ≡ [])) }
    {
        Ok(Sums {
            heads: SumRow::new(alloc)?,
            counts: SumRow::new(alloc)?,
            called: CalledSums::new(alloc)?,
        })
    }

    /// Raises each sum by `weight` times its number in a profile, in which no head, count or target
    /// stands twice.
    ///
    /// # Errors
    /// `CountTooLarge` with the line of the first number that does not fit 64 bits, so many times
    /// and together with its sum; and else `NoMemory`. All sums are then what they were.
    pub fn add(&mut self, part: &Profile, weight: u64) -> Result<(), MergeStop>
        requires { TellOnce part.now.items }
        ensures added { OnOk result (AddsPart weight part.now.items self.old self.new) }
        ensures judged { JudgesItems (first_over weight self.old part.now.items) result }
        ensures unchanged { OnErr result (AreSameSums self.old self.new) }
        ensures given { StaySumsOf part.now.items self.old self.new }
    {
        let items = part.items.as_slice();
        match self.first_over(items, weight) {
            Some(line) => Err(MergeStop::CountTooLarge(line)),
            None => Ok(self.add_fitting(items, weight)?),
        }
    }

    /// Raises the sums of these numbers, all of which fit.
    fn add_fitting(&mut self, items: &[Item], weight: u64) -> Result<(), NoMemory>
        requires once { TellOnce items.now }
        requires fit { first_over weight self.old items.now ≡ None }
        ensures added { OnOk result (AddsPart weight items.now self.old self.new) }
        ensures unchanged { OnErr result (AreSameSums self.old self.new) }
        ensures given { StaySumsOf items.now self.old self.new }
    {
        self.reach_all(items)?;
        self.raise_all(items, weight);
        Ok(())
    }

    /// The profile of the sums: each key, target and head has its sum. A total stands still at
    /// 2^64 - 1.
    ///
    /// The profiles that were added had their numbers from `keys` and `names`.
    ///
    /// # Errors
    /// `NoMemory`.
    pub fn tree(&self, alloc: Global, keys: &Keys, names: &Names) -> Result<Tree, NoMemory>
        requires given { AreSumsOf (length names.now) (length keys.now) self.now }
        requires key_names { All (HasNames (length names.now)) keys.now }
        ensures lines { IfOk result (λ tree. map (told names.now) tree.lines
            ≡ lines_of (sums_told names.now keys.now self.now)) }
        ensures names { IfOk result (λ tree. All (IsOf names.now) tree.lines) }
    {
        // What is read here is that 32 bits number all names.
        let _names = names.len();
        let counts = self.counts.padded(alloc, keys.len())?;
        let heads = heads_of(alloc, &self.heads)?;
        let calls = self.called.calls(alloc)?;
        tree_of(
            alloc,
            Numbers::each_once(counts, calls, heads),
            &[],
            keys,
            names,
        )
    }

    /// The line of the first of these numbers that is too large.
    fn first_over(&self, items: &[Item], weight: u64) -> Option<u64>
        ensures { result ≡ first_over weight self.now items.now }
    {
        for item in items {
            if raised(self.sum(item.what), weight, item.times).is_none() {
                return Some(item.line);
            }
        }
        None
    }

    /// Makes a place for the sum of each of these numbers.
    fn reach_all(&mut self, items: &[Item]) -> Result<(), NoMemory>
        ensures same { AreSameSums self.old self.new }
        ensures reached { OnOk result (HavePlaces self.new items.now) }
        ensures given { StaySumsOf items.now self.old self.new }
    {
        for item in items {
            self.reach(item.what)?;
        }
        Ok(())
    }

    /// Raises the sum of each of these numbers, all of which fit and have places.
    fn raise_all(&mut self, items: &[Item], weight: u64)
        requires places { HavePlaces self.old items.now }
        requires once { TellOnce items.now }
        requires fit { first_over weight self.old items.now ≡ None }
        ensures added { AddsPart weight items.now self.old self.new }
        ensures given { StaySumsOf [] self.old self.new }
    {
        for item in items {
            let sum = self.sum(item.what) + weight * item.times;
            self.set(item.what, sum);
        }
    }

    /// The sum of a head, a count or a target.
    fn sum(&self, what: What) -> u64
        ensures { result ≡ sum_in self.now what }
    {
        match what {
            What::Head(name) => self.heads.sum(name.0),
            What::Count(key) => self.counts.sum(key.0),
            What::Target(key, callee) => self.called.sum(key, callee),
        }
    }

    /// Makes a place for a sum, so that setting it takes no memory.
    fn reach(&mut self, what: What) -> Result<(), NoMemory>
        ensures same { AreSameSums self.old self.new }
        ensures kept { KeepsPlaces self.old self.new }
        ensures reached { OnOk result (HasPlace self.new what) }
        ensures given { (names keys : ℕ) → IsGivenWhat names keys what
            → AreSumsOf names keys self.old → AreSumsOf names keys self.new }
    {
        match what {
            What::Head(name) => self.heads.reach(name.0),
            What::Count(key) => self.counts.reach(key.0),
            What::Target(key, callee) => self.called.reach(key, callee),
        }
    }

    /// Sets a sum that has a place.
    fn set(&mut self, what: What, sum: u64)
        requires { HasPlace self.old what }
        ensures sum { IsWithSum self.old what sum self.new }
        ensures kept { KeepsPlaces self.old self.new }
        ensures given { StaySumsOf [] self.old self.new }
    {
        match what {
            What::Head(name) => self.heads.set(name.0, sum),
            What::Count(key) => self.counts.set(key.0, sum),
            What::Target(key, callee) => self.called.set(key, callee, sum),
        }
    }
}

/// A sum, raised by so many times a number, if that fits.
fn raised(sum: u64, weight: u64, times: u64) -> Option<u64>
    ensures { IsNone result ↔ (2 ^ 64 ≤ weight * times + sum) }
{
    weight.checked_mul(times)?.checked_add(sum)
}
