//! How often the blocks and the edges of a function were sampled: blocks by the counts of the
//! places in them, edges by branches and by the ranges that ran.
//!
//! `SegmentCounts` makes a tree of the largest counts of runs of segments once, for all functions.
//! `weights` then finds the segments of each block behind those of the block before, or by search,
//! and the largest of their counts by the tree. `EdgeSamples` puts branches and ranges in order
//! once, and adds the branches up. `edge_weights` finds the branches of a block and the ranges that
//! ran past an address by search.
#![tactic(auto)]

mod blocks;
mod counted;
mod edges;
mod passing;
mod runs;
mod samples;
mod taken;

pub use blocks::weights;
pub use counted::SegmentCounts;
pub use edges::edge_weights;
pub use range_counts::RanRange;
pub use samples::EdgeSamples;
