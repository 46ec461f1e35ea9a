//! Numbers of profile texts, summed with weights, and the summary of a text: how hot its hot lines
//! are.
//!
//! `Sums` adds the numbers of one text after the other, each so many times as its weight says, and
//! tells the line of the first that would not fit 64 bits. What it came to is a tree of lines.
#![tactic(auto)]

mod called;
mod functions;
mod hot;
mod laws;
mod row;
mod stated;
mod sums;
mod text;

pub use laws::{
    first_over_is_first_bad, lines_are_of_sums, nothing_is_summed, raised_sums_count_both,
    sums_are_by_counts, sums_stay_with_more,
};
pub use sums::{MergeStop, Sums};
pub use text::summary;
