ghost use Rattle.std.specs.Prelude.{◌≡◌, ◌<◌, ◌≤◌, length, true, IfOk};
ghost use Rattle.std.specs.List.{AllWithin};
ghost use Rattle.key_types.specs.Segments.{AreSegments, key_told};
ghost use Rattle.weight_model.specs.Blocks.{IsWeightOf};
ghost use Rattle.block_weights.specs.Counts.{count_in, counts_of};
ghost use Rattle.block_weights.specs.Largest.{largest_in};

use crate::runs::{RUN, largest_node, largest_walked, tree_of};
use cfg_text::{Block, Weight};
use key_types::Seg;
use refusal::NoMemory;
use std::alloc::Global;
use std::marker::Model;

/// How many segments are looked through for the first or the last one of a block before that is
/// searched for.
const NEAR: usize = 16;

/// The segments of a program, which tell the key of each address, and the count of each key at its
/// number; keys behind the end of the counts count 0.
// Why: The largest count in a block is found by two searches and a tree over runs of 16 segments,
// made once for all functions, however many the block spans.
#[derive(Debug, Drop)]
pub struct SegmentCounts<'s> {
    segments: &'s [Seg],
    counts: &'s [u64],
    /// The largest counts of runs of segments.
    tree: Vec<u64>,
}

impl<'s> Model for SegmentCounts<'s> {
    ghost use Rattle.std.specs.Prelude.{◌/◌, length};
    ghost use Rattle.key_types.specs.Segments.{AreSegments};
    ghost use Rattle.block_weights.specs.Counts.{Counted, counts_of};
    ghost use Rattle.block_weights.specs.Largest.{IsTree};

    ghost Value = { Counted };

    ghost view = { λ c. record { segments = c.segments.now; counts = c.counts.now } };

    ghost invariant = { λ c. AreSegments c.segments.now
        × IsTree (counts_of c.counts.now c.segments.now) (length c.segments.now / 16)
        c.tree.items };
}

impl<'s> SegmentCounts<'s> {
    /// Of these segments, and these counts of keys.
    ///
    /// # Errors
    /// `NoMemory`.
    pub fn new(
        alloc: Global,
        segments: &'s [Seg],
        counts: &'s [u64],
    ) -> Result<SegmentCounts<'s>, NoMemory>
        requires { AreSegments segments.now }
        ensures segments { IfOk result (λ made. made.segments ≡ segments.now) }
        ensures counts { IfOk result (λ made. made.counts ≡ counts.now) }
    {
        let tree = tree_of(alloc, segments, counts)?;
        Ok(SegmentCounts {
            segments,
            counts,
            tree,
        })
    }

    /// The weight of a block, and the place of its last segment. Its first one is looked for from
    /// the place `near` on, and searched for if it is not there.
    ///
    /// It takes two searches at most, and looks at few segments.
    pub(crate) fn weight_of(&self, block: &Block, near: usize) -> (Weight, usize)
        requires { near ≤ length self.now.segments }
        ensures weight { IsWeightOf (key_told self.now.segments) (count_in self.now.counts)
            block.now result.0 }
        ensures near { result.1 ≤ length self.now.segments }
    {
        let Block { lo, hi, .. } = *block;
        if hi <= lo {
            return (Weight::Unknown, near);
        }
        let first = first_behind(self.segments, near, lo);
        let end = end_below(self.segments, first, hi);
        if end <= first {
            return (Weight::Unknown, first);
        }
        (Weight::Known(self.largest(first, end)), end - 1)
    }

    /// The largest count of the segments from one place on up to another.
    fn largest(&self, first: usize, end: usize) -> u64
        requires { (first ≤ end) × (end ≤ length self.now.segments) }
        ensures { result ≡ largest_in (counts_of self.now.counts self.now.segments) first end }
    {
        let first_run = first / RUN + 1;
        let end_run = end / RUN;
        if end_run <= first_run {
            return largest_walked(self.segments, self.counts, first, end);
        }
        let front = largest_walked(self.segments, self.counts, first, first_run * RUN);
        let back = largest_walked(self.segments, self.counts, end_run * RUN, end);
        let runs = self.segments.len() / RUN;
        front
            .max(largest_node(&self.tree, runs, first_run, end_run))
            .max(back)
    }
}

/// The place of the first segment that reaches behind an address. It is looked for from `near` on,
/// and searched for if it is not there.
fn first_behind(segments: &[Seg], near: usize, lo: u64) -> usize
    requires segments { AreSegments segments.now }
    requires near { near ≤ length segments.now }
    ensures within { result ≤ length segments.now }
    ensures passed { AllWithin (λ segment. segment.hi ≤ lo) segments.now 0 result }
    ensures ahead { AllWithin (λ segment. lo < segment.hi) segments.now result
        (length segments.now) }
{
    let place = behind_near(segments, near, lo);
    if are_passed(segments, place, lo) && are_ahead(segments, place, lo) {
        return place;
    }
    segments.partition_point(|segment| segment.hi <= lo)
}

/// The place of the first segment from `near` on that reaches behind an address, or of one in front
/// of it that is not near.
fn behind_near(segments: &[Seg], near: usize, lo: u64) -> usize
    requires { near ≤ length segments.now }
    ensures { result ≤ length segments.now }
{
    let mut place = near;
    while place < segments.len() && segments[place].hi <= lo && place - near < NEAR {
        place += 1;
    }
    place
}

/// Whether no segment in front of a place reaches behind an address.
fn are_passed(segments: &[Seg], place: usize, lo: u64) -> bool
    requires segments { AreSegments segments.now }
    requires within { place ≤ length segments.now }
    ensures { result ≡ true → AllWithin (λ segment. segment.hi ≤ lo) segments.now 0 place }
{
    if place == 0 {
        return true;
    }
    if lo < segments[place - 1].hi {
        return false;
    }
    true
}

/// Whether all segments from a place on reach behind an address.
fn are_ahead(segments: &[Seg], place: usize, lo: u64) -> bool
    requires { AreSegments segments.now }
    ensures { result ≡ true → AllWithin (λ segment. lo < segment.hi) segments.now place
        (length segments.now) }
{
    if segments.len() <= place {
        return true;
    }
    if segments[place].hi <= lo {
        return false;
    }
    true
}

/// The place of the first segment from `first` on that does not begin below an address.
fn end_below(segments: &[Seg], first: usize, hi: u64) -> usize
    requires segments { AreSegments segments.now }
    requires within { first ≤ length segments.now }
    ensures within { (first ≤ result) × (result ≤ length segments.now) }
    ensures below { AllWithin (λ segment. segment.lo < hi) segments.now first result }
    ensures from { AllWithin (λ segment. hi ≤ segment.lo) segments.now result
        (length segments.now) }
{
    let mut end = first;
    while end < segments.len() && segments[end].lo < hi {
        if end - first == NEAR {
            return segments.partition_point(|segment| segment.lo < hi);
        }
        end += 1;
    }
    end
}
