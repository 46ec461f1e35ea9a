ghost use Rattle.std.specs.Prelude.{◌≡◌, ℕ, ◌+◌, ◌^◌, ◌<◌, ◌++◌, length, nat_lt, flat_map, All, IfOk, OnOk};
ghost use Rattle.std.specs.List.Sorted.{IsNonDecreasingBy};
ghost use Rattle.profile_model.specs.Hits.{AreRanges, hits_at, times_of};
ghost use Rattle.profile_model.specs.Steps.{hits_by, hits_on};
ghost use Rattle.range_counts.specs.Changes.{AreSound, address_of, changes_at, running_at};
ghost use Rattle.range_counts.specs.Steps.{Ascend};

use crate::hits::Hits;
use profile_model::{RanRange, Step};
use refusal::NoMemory;
use std::alloc::Global;

/// How often ranges begin at an address, and how often others ended just before it.
#[derive(Clone, Copy, Debug, PartialEq, Eq)]
struct Change {
    at: u64,
    begun: u64,
    ended: u64,
}

/// How often each address ran, by ranges that may lie over one another. No range ends before it
/// begins, and all times add up to less than 2^64.
///
/// It takes a sort of the ranges' ends.
///
/// # Errors
/// `NoMemory`.
pub fn sweep(alloc: Global, ranges: &[RanRange]) -> Result<Hits, NoMemory>
    requires ranges { AreRanges ranges.now }
    requires times { times_of ranges.now < 2 ^ 64 }
    ensures { IfOk result (λ hits. hits_by hits ≡ hits_at ranges.now) }
{
    let mut changes = changes_of(alloc, ranges)?;
    changes.sort_unstable_by_key(|change| change.at);
    let steps = steps_of(alloc, &changes)?;
    Ok(Hits { steps })
}

/// Where ranges begin, and where they have ended.
fn changes_of(alloc: Global, ranges: &[RanRange]) -> Result<Vec<Change>, NoMemory>
    ensures changes { IfOk result (λ changes. changes.items ≡ flat_map changes_at ranges.now) }
    ensures addresses { OnOk result (All (λ range. range.hi < 2 ^ 64) ranges.now) }
{
    let mut changes = Vec::new(alloc);
    for range in ranges {
        push_changes(&mut changes, range)?;
    }
    Ok(changes)
}

/// Appends where a range begins, and where it has ended if there is an address behind it.
fn push_changes(changes: &mut Vec<Change>, range: &RanRange) -> Result<(), NoMemory>
    ensures pushed { OnOk result (changes.new.items ≡ changes.old.items ++ changes_at range.now) }
    ensures address { range.now.hi < 2 ^ 64 }
{
    let RanRange { lo, hi, times } = *range;
    changes.push(Change {
        at: lo,
        begun: times,
        ended: 0,
    })?;
    if let Some(behind) = hi.checked_add(1) {
        changes.push(Change {
            at: behind,
            begun: 0,
            ended: times,
        })?;
    }
    Ok(())
}

/// The steps of changes in the order of their addresses, one for each address.
fn steps_of(alloc: Global, changes: &[Change]) -> Result<Vec<Step>, NoMemory>
    requires rise { IsNonDecreasingBy (λ change. change.at) changes.now }
    requires sound { AreSound changes.now }
    ensures ascend { IfOk result (λ steps. Ascend steps.items) }
    ensures hits { IfOk result (λ steps. (address : ℕ) → address < 2 ^ 64 →
        hits_on steps.items address ≡ running_at changes.now address) }
{
    let mut steps = Vec::new(alloc);
    let mut begun = 0;
    let mut ended = 0;
    for (i, change) in changes.iter().enumerate() {
        begun += change.begun;
        ended += change.ended;
        if is_last_at_its_address(changes, i) {
            steps.push(Step {
                at: change.at,
                hits: begun - ended,
            })?;
        }
    }
    Ok(steps)
}

/// Whether the next change has another address, or there is none.
fn is_last_at_its_address(changes: &[Change], i: usize) -> bool
    requires { i < length changes.now }
    ensures last { result ≡ nat_lt (address_of changes.now i) (address_of changes.now (i + 1)) }
    ensures inside { address_of changes.now i < 2 ^ 64 }
{
    let at = changes[i].at;
    match changes.get(i + 1) {
        Some(next) => at < next.at,
        None => true,
    }
}
