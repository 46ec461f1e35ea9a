ghost use Rattle.std.specs.Prelude.{◌≡◌, ◌<◌, ◌≤◌, ◌^◌, length, true, IfOk};
ghost use Rattle.std.specs.List.{AllWithin};
ghost use Rattle.std.specs.List.Sorted.{IsNonDecreasingBy};
ghost use Rattle.block_weights.specs.Sampled.{AreSums, branches_taken, rank as rank_of};
ghost use Rattle.weight_model.specs.Edges.{taken as times_taken};

use cfg_text::Block;
use refusal::NoMemory;
use sample_model::Pair;
use std::alloc::Global;

/// How many places on either side of that of another branch are searched before all are.
const NEAR: usize = 32;

/// How many ranks there are for the sources of a target.
const SOURCES: u128 = u64::MAX as u128 + 1;

/// The rank of a branch to an address from another: by its target, and for one target by its
/// source.
pub(crate) fn rank(to: u64, from: u64) -> u128
    ensures { result ≡ rank_of to from }
{
    u128::from(to) * SOURCES + u128::from(from)
}

/// How often the branches in front of each place of their list were taken, and behind the last
/// place all of them: one sum more than there are branches.
pub(crate) fn sums_of(alloc: Global, branches: &[Pair]) -> Result<Vec<u64>, NoMemory>
    requires { branches_taken branches.now < 2 ^ 32 }
    ensures { IfOk result (λ sums. AreSums branches.now sums.items) }
{
    let mut sums = Vec::with_capacity(alloc, branches.len() + 1)?;
    let mut sum = 0;
    for branch in branches {
        let branch = *branch;
        sums.push(sum)?;
        sum += branch.times;
    }
    sums.push(sum)?;
    Ok(sums)
}

/// How often branches from a block to an address were taken, where the branches stand by their
/// ranks, and the place of the first of them. They stand behind one another.
///
/// It takes two searches, of few branches where the place is near that of another edge.
pub(crate) fn taken(
    branches: &[Pair],
    sums: &[u64],
    near: usize,
    block: &Block,
    to: u64,
) -> (u64, usize)
    requires rise { IsNonDecreasingBy (λ branch. rank_of branch.to branch.from) branches.now }
    requires sums { AreSums branches.now sums.now }
    requires fits { branches_taken branches.now < 2 ^ 32 }
    requires near { near ≤ length branches.now }
    ensures same { result.0 ≡ times_taken branches.now block.now to }
    ensures fits { result.0 < 2 ^ 32 }
    ensures near { result.1 ≤ length branches.now }
{
    let first = place_near(branches, near, to, block.lo);
    let end = place_near(branches, first, to, block.hi);
    if end <= first {
        return (0, first);
    }
    (sums[end] - sums[first], first)
}

/// How many branches stand below the rank of a target and a source. Those around a place are
/// searched first: edges of one function lead to few places.
fn place_near(branches: &[Pair], near: usize, to: u64, from: u64) -> usize
    requires rise { IsNonDecreasingBy (λ branch. rank_of branch.to branch.from) branches.now }
    requires near { near ≤ length branches.now }
    ensures within { result ≤ length branches.now }
    ensures below { AllWithin (λ branch. rank_of branch.to branch.from < rank_of to from)
        branches.now 0 result }
    ensures from { AllWithin (λ branch. rank_of to from ≤ rank_of branch.to branch.from)
        branches.now result (length branches.now) }
{
    let low = near.saturating_sub(NEAR);
    let high = branches.len().min(near + NEAR);
    if are_below(branches, low, to, from) && are_from(branches, high, to, from) {
        return low + place_of(&branches[low..high], to, from);
    }
    place_of(branches, to, from)
}

/// Whether all branches in front of a place stand below the rank of a target and a source.
fn are_below(branches: &[Pair], place: usize, to: u64, from: u64) -> bool
    requires rise { IsNonDecreasingBy (λ branch. rank_of branch.to branch.from) branches.now }
    requires within { place ≤ length branches.now }
    ensures { result ≡ true → AllWithin
        (λ branch. rank_of branch.to branch.from < rank_of to from) branches.now 0 place }
{
    if place == 0 {
        return true;
    }
    let last = &branches[place - 1];
    rank(last.to, last.from) < rank(to, from)
}

/// Whether no branch from a place on stands below the rank of a target and a source.
fn are_from(branches: &[Pair], place: usize, to: u64, from: u64) -> bool
    requires { IsNonDecreasingBy (λ branch. rank_of branch.to branch.from) branches.now }
    ensures { result ≡ true → AllWithin
        (λ branch. rank_of to from ≤ rank_of branch.to branch.from)
        branches.now place (length branches.now) }
{
    if branches.len() <= place {
        return true;
    }
    let first = &branches[place];
    rank(to, from) <= rank(first.to, first.from)
}

/// How many branches stand below the rank of a target and a source.
fn place_of(branches: &[Pair], to: u64, from: u64) -> usize
    requires { IsNonDecreasingBy (λ branch. rank_of branch.to branch.from) branches.now }
    ensures within { result ≤ length branches.now }
    ensures below { AllWithin (λ branch. rank_of branch.to branch.from < rank_of to from)
        branches.now 0 result }
    ensures from { AllWithin (λ branch. rank_of to from ≤ rank_of branch.to branch.from)
        branches.now result (length branches.now) }
{
    let least = rank(to, from);
    branches.partition_point(|branch| rank(branch.to, branch.from) < least)
}
