// Calls of one function from one key, added up.
ghost use Rattle.std.specs.Prelude.{◌≡◌, ◌<◌, ◌+◌, ◌++◌, ◌^◌, true, All, IfOk, IsPermutation, IsSorted, OnOk, ℕ, filter, length, map};
ghost use Rattle.profile_lists.specs.Pairs.{AreMerged, is_at, joined, pair_cmp, pair_of, sum_at, was_made, with_pair};

use key_types::{KeyId, NameId};
use refusal::NoMemory;
use std::alloc::{AllocError, Global};

/// Calls of a function from a key.
#[derive(Clone, Copy, Debug, PartialEq, Eq)]
pub struct Call {
    /// The place from which it was called.
    pub key: KeyId,
    /// The function that was called.
    pub callee: NameId,
    /// How often.
    pub times: u64,
}

/// Calls of the function of a rank from a key.
#[derive(Clone, Copy, Debug, PartialEq, Eq, PartialOrd, Ord)]
pub(crate) struct RankedCall {
    pub key: u32,
    pub rank: u32,
    pub times: u64,
}

/// The calls that were made at all, by the ranks of the callees.
pub(crate) fn pairs_of(
    alloc: Global,
    calls: &[Call],
    ranks: &[u32],
) -> Result<Vec<RankedCall>, NoMemory>
    requires { All (λ call. call.callee.0 < length ranks.now) calls.now }
    ensures { IfOk result (λ pairs. pairs.items
        ≡ map (pair_of ranks.now) (filter was_made calls.now)) }
{
    let mut pairs = Vec::new(alloc);
    for call in calls {
        if call.times > 0 {
            pairs.push(RankedCall {
                key: call.key.0,
                rank: ranks[call.callee.0 as usize],
                times: call.times,
            })?;
        }
    }
    Ok(pairs)
}

/// Puts pairs into the order of their keys, and then of their ranks.
pub(crate) fn sort_pairs(pairs: &mut Vec<RankedCall>) -> Result<(), AllocError>
    ensures same { IsPermutation pairs.old.items pairs.new.items }
    ensures sorted { OnOk result (IsSorted pair_cmp pairs.new.items) }
{
    pairs.sort()
}

/// Pairs of one key and one rank made one, of pairs in order.
pub(crate) fn merged(alloc: Global, pairs: &[RankedCall]) -> Result<Vec<RankedCall>, NoMemory>
    requires sorted { IsSorted pair_cmp pairs.now }
    requires made { All (λ pair. 0 < pair.times) pairs.now }
    requires fit { (key rank : ℕ) → sum_at pairs.now key rank < 2 ^ 64 }
    ensures { IfOk result (λ merged. AreMerged pairs.now merged.items) }
{
    let mut merged = Vec::new(alloc);
    for pair in pairs {
        add(&mut merged, pair)?;
    }
    Ok(merged)
}

/// Adds a pair to the last one, where that has the same key and rank, or else behind it.
fn add(merged: &mut Vec<RankedCall>, pair: &RankedCall) -> Result<(), NoMemory>
    requires { sum_at merged.old.items pair.now.key pair.now.rank + pair.now.times < 2 ^ 64 }
    ensures { OnOk result (merged.new.items ≡ with_pair merged.old.items pair.now) }
{
    match merged.pop() {
        Some(last) => push_joined(merged, last, pair),
        None => {
            merged.push(*pair)?;
            Ok(())
        }
    }
}

/// Appends two pairs, as one where they have the same key and rank.
fn push_joined(
    merged: &mut Vec<RankedCall>,
    last: RankedCall,
    pair: &RankedCall,
) -> Result<(), NoMemory>
    requires { is_at last.key last.rank pair.now ≡ true → last.times + pair.now.times < 2 ^ 64 }
    ensures { OnOk result (merged.new.items ≡ merged.old.items ++ joined last pair.now) }
{
    if pair.key == last.key && pair.rank == last.rank {
        let times = last.times + pair.times;
        merged.push(RankedCall { times, ..last })?;
    } else {
        merged.push(last)?;
        merged.push(*pair)?;
    }
    Ok(())
}
