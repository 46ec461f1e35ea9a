// The targets of all keys, in order.
ghost use Rattle.std.specs.Prelude.{◌≡◌, ◌==◌, ◌<◌, ◌^◌, All, IfOk, IsPermutation, IsSorted, OnOk, ℕ, filter, length, map, take_while};
ghost use Rattle.profile_lists.specs.Lists.{AreTargets, entry_of, target_cmp};
ghost use Rattle.profile_lists.specs.Pairs.{pair_of, sum_at, was_made};

use crate::pairs::{Call, RankedCall, merged, pairs_of, sort_pairs};
use refusal::NoMemory;
use std::alloc::{AllocError, Global};
use std::cmp::Reverse;
use std::marker::Model;

/// A function that was called from a key, and how often. Targets go by key, then by how often they
/// were called, the most often first, then by rank.
#[derive(Clone, Copy, Debug, PartialEq, Eq, PartialOrd, Ord)]
pub struct Target {
    pub key: u32,
    pub times: Reverse<u64>,
    pub rank: u32,
}

/// The targets of all keys.
#[derive(Debug, Drop)]
pub struct Targets {
    targets: Vec<Target>,
}

// Clauses see the list of all targets, in order.
impl Model for Targets {
    ghost use Rattle.std.specs.Prelude.{IsSorted, List};
    ghost use Rattle.profile_lists.specs.Lists.{target_cmp};
    ghost use Rattle.profile_lists.specs.declared.lists.Target.{Target};

    ghost Value = { List Target };

    ghost view = { λ a. a.targets.items };

    ghost invariant = { λ a. IsSorted target_cmp a.targets.items };
}

impl Targets {
    /// The targets of a key.
    pub fn of_key(&self, key: u32) -> &[Target]
        ensures { result.now ≡ filter (λ target. target.key == key) self.now }
    {
        let start = self.targets.partition_point(|target| target.key < key);
        first_of(&self.targets[start..], key)
    }
}

/// The targets of a key that stand in front. They are few, so they are counted and not searched.
fn first_of(targets: &[Target], key: u32) -> &[Target]
    ensures { result.now ≡ take_while (λ target. target.key == key) targets.now }
{
    let mut len = 0;
    while len < targets.len() && targets[len].key == key {
        len += 1;
    }
    &targets[..len]
}

/// The targets that calls make, where the callees have ranks. What was called 0 times is no target.
///
/// # Errors
/// `NoMemory`.
pub fn targets_of(alloc: Global, calls: &[Call], ranks: &[u32]) -> Result<Targets, NoMemory>
    requires ranked { All (λ call. call.callee.0 < length ranks.now) calls.now }
    requires fit { (key rank : ℕ) →
        sum_at (map (pair_of ranks.now) (filter was_made calls.now)) key rank < 2 ^ 64 }
    ensures { IfOk result (λ targets. AreTargets ranks.now calls.now targets) }
{
    let mut pairs = pairs_of(alloc, calls, ranks)?;
    sort_pairs(&mut pairs)?;
    let merged = merged(alloc, &pairs)?;
    let mut targets = entries_of(alloc, &merged)?;
    sort_targets(&mut targets)?;
    Ok(Targets { targets })
}

/// A target for each pair.
fn entries_of(alloc: Global, pairs: &[RankedCall]) -> Result<Vec<Target>, NoMemory>
    ensures { IfOk result (λ targets. targets.items ≡ map entry_of pairs.now) }
{
    let mut targets = Vec::new(alloc);
    for pair in pairs {
        targets.push(Target {
            key: pair.key,
            times: Reverse(pair.times),
            rank: pair.rank,
        })?;
    }
    Ok(targets)
}

/// Puts targets into their order.
fn sort_targets(targets: &mut Vec<Target>) -> Result<(), AllocError>
    ensures same { IsPermutation targets.old.items targets.new.items }
    ensures sorted { OnOk result (IsSorted target_cmp targets.new.items) }
{
    targets.sort()
}
