// The largest of counts of segments that stand behind one another, by a tree.
ghost use Rattle.std.specs.Prelude.{◌≡◌, ◌+◌, ◌*◌, ◌-◌, ◌/◌, ◌<◌, ◌≤◌, ℕ, length, slice_index, IfOk, OnOk};
ghost use Rattle.block_weights.specs.Counts.{count_in, counts_of};
ghost use Rattle.block_weights.specs.Largest.{ArePairs, IsTree, largest_in};

use key_types::{KeyId, Seg};
use refusal::NoMemory;
use std::alloc::Global;

/// How many segments make a run, whose largest count is a leaf of the tree.
pub(crate) const RUN: usize = 16;

/// The largest count of each whole run of segments, and behind these the larger one of each two.
pub(crate) fn tree_of(alloc: Global, segments: &[Seg], counts: &[u64]) -> Result<Vec<u64>, NoMemory>
    ensures { IfOk result (λ tree. IsTree (counts_of counts.now segments.now)
        (length segments.now / 16) tree.items) }
{
    let mut tree = leaves_of(alloc, segments, counts)?;
    push_pairs(&mut tree)?;
    Ok(tree)
}

/// The largest count of each whole run of segments.
fn leaves_of(alloc: Global, segments: &[Seg], counts: &[u64]) -> Result<Vec<u64>, NoMemory>
    ensures each { IfOk result (λ made. length made.items ≡ length segments.now / 16) }
    ensures largest { IfOk result (λ made. (run : ℕ) → run < length segments.now / 16
        → slice_index made.items run
        ≡ largest_in (counts_of counts.now segments.now) (run * 16) (run * 16 + 16)) }
{
    let runs = segments.len() / RUN;
    let mut made = Vec::with_capacity(alloc, 2 * runs)?;
    for run in 0..runs {
        let first = run * RUN;
        made.push(largest_walked(segments, counts, first, first + RUN))?;
    }
    Ok(made)
}

/// Appends the larger one of each two, of those that are appended too.
fn push_pairs(tree: &mut Vec<u64>) -> Result<(), NoMemory>
    ensures kept { OnOk result ((place : ℕ) → place < length tree.old.items
        → slice_index tree.new.items place ≡ slice_index tree.old.items place) }
    ensures pairs { OnOk result (ArePairs (length tree.old.items) tree.new.items) }
{
    let runs = tree.len();
    for pair in 0..runs.saturating_sub(1) {
        let larger = tree[2 * pair].max(tree[2 * pair + 1]);
        tree.push(larger)?;
    }
    Ok(())
}

/// The largest of the nodes of a tree of so many runs from one place on up to another.
///
/// It takes a call or three for each time that they can be halved.
pub(crate) fn largest_node(tree: &[u64], runs: usize, first: usize, end: usize) -> u64
    requires pairs { ArePairs runs tree.now }
    requires within { end ≤ length tree.now }
    ensures { result ≡ largest_in tree.now first end }
{
    if end <= first {
        return 0;
    }
    if first % 2 == 1 {
        return tree[first].max(largest_node(tree, runs, first + 1, end));
    }
    if end % 2 == 1 {
        return tree[end - 1].max(largest_node(tree, runs, first, end - 1));
    }
    largest_node(tree, runs, runs + first / 2, runs + end / 2)
}

/// The largest count of the segments from one place on up to another, one by one.
pub(crate) fn largest_walked(segments: &[Seg], counts: &[u64], first: usize, end: usize) -> u64
    requires { (first ≤ end) × (end ≤ length segments.now) }
    ensures { result ≡ largest_in (counts_of counts.now segments.now) first end }
{
    let mut largest = 0_u64;
    for place in first..end {
        largest = largest.max(count_of(counts, segments[place].key));
    }
    largest
}

/// The count of a key.
fn count_of(counts: &[u64], key: KeyId) -> u64
    ensures { result ≡ count_in counts.now key }
{
    match counts.get(key.0 as usize) {
        Some(count) => *count,
        None => 0,
    }
}
