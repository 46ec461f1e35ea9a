// The numbers of a profile.
ghost use Rattle.std.specs.Prelude.{◌≡◌, ◌<◌, ◌^◌, ℕ, All, IfOk, length, slice_set};
ghost use Rattle.key_types.specs.Segments.{AreSegments};
ghost use Rattle.profile_laws.specs.Once.{StandOnce};
ghost use Rattle.profile_lists.specs.Segments.{AllFit};
ghost use Rattle.profile_model.specs.Steps.{hits_by};
ghost use Rattle.profile_tree.specs.Known.{called_from};
ghost use Rattle.profile_tree.specs.Said.{AreCountsOfPlaces};
ghost use Rattle.profile_tree.specs.Sums.{AreEach, calls_of, count_stated, entries_of};

use crate::fit::{calls_fit, heads_fit};
use crate::head::Head;
use crate::key_count::KeyCount;
use crate::sums::stated_of;
use key_types::{KeyId, Seg};
use profile_lists::{Call, counts_of};
use range_counts::Hits;
use refusal::NoMemory;
use std::alloc::Global;
use std::marker::Model;

/// The numbers of a profile: the count of each key, at its number, how often functions were called
/// from keys, and how often they were entered.
///
/// Several calls of one function from one key add up, to less than 2^64, and so do several heads of
/// one function.
// Why: A value keeps this, so that no caller of `tree_of` says it again. Calls and heads may stand
// several times, as branches give them, and are added up where lines are made.
#[derive(Debug, Drop)]
pub struct Numbers {
    counts: Vec<u64>,
    calls: Vec<Call>,
    heads: Vec<Head>,
}

// Clauses see the three lists.
impl Model for Numbers {
    ghost use Rattle.profile_tree.specs.Numbers as model;

    ghost Value = { model.Numbers };

    ghost view = { λ n. record {
      counts = n.counts.items;
      calls = n.calls.items;
      heads = n.heads.items;
    } };

    ghost invariant = { λ n. model.Fit n.calls.items n.heads.items };
}

impl Numbers {
    /// The numbers of these lists, whose times add up to less than 2^64 for each key and callee,
    /// and for each function that was entered.
    pub fn new(counts: Vec<u64>, calls: Vec<Call>, heads: Vec<Head>) -> Numbers
        requires call_sums { (key callee : ℕ) → calls_of calls.items key callee < 2 ^ 64 }
        requires head_sums { (name : ℕ) → entries_of heads.items name < 2 ^ 64 }
        ensures counts { result.counts ≡ counts.items }
        ensures calls { result.calls ≡ calls.items }
        ensures heads { result.heads ≡ heads.items }
    {
        Numbers {
            counts,
            calls,
            heads,
        }
    }

    /// The numbers of these lists, where each key and callee stands once, and each function.
    pub fn each_once(counts: Vec<u64>, calls: Vec<Call>, heads: Vec<Head>) -> Numbers
        requires calls_once { StandOnce called_from calls.items }
        requires heads_once { StandOnce (λ head. head.name.0) heads.items }
        ensures counts { result.counts ≡ counts.items }
        ensures calls { result.calls ≡ calls.items }
        ensures heads { result.heads ≡ heads.items }
    {
        calls_fit(&calls);
        heads_fit(&heads);
        Numbers::new(counts, calls, heads)
    }

    /// The same with the counts that are stated, of `keys` keys: 0 for a key of which none is.
    ///
    /// # Errors
    /// `NoMemory`.
    pub fn stated(
        alloc: Global,
        keys: u32,
        counts: &[KeyCount],
        calls: Vec<Call>,
        heads: Vec<Head>,
    ) -> Result<Numbers, NoMemory>
        requires given { All (λ count. count.key.0 < keys) counts.now }
        requires counts_once { StandOnce (λ count. count.key.0) counts.now }
        requires calls_once { StandOnce called_from calls.items }
        requires heads_once { StandOnce (λ head. head.name.0) heads.items }
        ensures counts { IfOk result (λ numbers.
            AreEach keys (count_stated counts.now) numbers.counts) }
        ensures calls { IfOk result (λ numbers. numbers.calls ≡ calls.items) }
        ensures heads { IfOk result (λ numbers. numbers.heads ≡ heads.items) }
    {
        let counts = stated_of(alloc, keys, counts)?;
        Ok(Numbers::each_once(counts, calls, heads))
    }

    /// The numbers of `keys` keys over segments, whose addresses have these hits. The count of a
    /// key is the largest hits times factor of the addresses of its segments, and below 2^44.
    ///
    /// Segments are disjoint, ascending and not empty, hits are below 2^32 and factors below 4,096.
    ///
    /// # Errors
    /// `NoMemory`.
    pub fn of_places(
        alloc: Global,
        keys: u32,
        segments: &[Seg],
        hits: &Hits,
        calls: Vec<Call>,
        heads: Vec<Head>,
    ) -> Result<Numbers, NoMemory>
        requires segments { AreSegments segments.now }
        requires fit { AllFit keys segments.now }
        requires hits { (a : ℕ) → hits_by hits.now a < 2 ^ 32 }
        requires call_sums { (key callee : ℕ) → calls_of calls.items key callee < 2 ^ 64 }
        requires head_sums { (name : ℕ) → entries_of heads.items name < 2 ^ 64 }
        ensures counts { IfOk result (λ numbers.
            AreCountsOfPlaces segments.now (hits_by hits.now) numbers.counts) }
        ensures len { IfOk result (λ numbers. length numbers.counts ≡ keys) }
        ensures small { IfOk result (λ numbers. All (λ count. count < 2 ^ 44) numbers.counts) }
        ensures calls { IfOk result (λ numbers. numbers.calls ≡ calls.items) }
        ensures heads { IfOk result (λ numbers. numbers.heads ≡ heads.items) }
    {
        let counts = counts_of(alloc, segments, hits, keys)?;
        Ok(Numbers::new(counts, calls, heads))
    }

    /// The count of each key, at its number.
    pub fn counts(&self) -> &[u64]
        ensures { result.now ≡ self.now.counts }
    {
        &self.counts
    }

    /// How often functions were called from keys.
    pub fn calls(&self) -> &[Call]
        ensures same { result.now ≡ self.now.calls }
        ensures fit { (key callee : ℕ) → calls_of result.now key callee < 2 ^ 64 }
    {
        &self.calls
    }

    /// How often functions were entered.
    pub fn heads(&self) -> &[Head]
        ensures same { result.now ≡ self.now.heads }
        ensures fit { (name : ℕ) → entries_of result.now name < 2 ^ 64 }
    {
        &self.heads
    }

    /// Gives a key this count.
    pub fn set_count(&mut self, key: KeyId, count: u64)
        requires { key.0 < length self.old.counts }
        ensures counts { self.new.counts ≡ slice_set self.old.counts key.0 count }
        ensures calls { self.new.calls ≡ self.old.calls }
        ensures heads { self.new.heads ≡ self.old.heads }
    {
        self.counts[key.0 as usize] = count;
    }

    /// The counts alone.
    pub(crate) fn into_counts(self) -> Vec<u64>
        ensures { result.items ≡ self.counts }
    {
        self.counts
    }
}
