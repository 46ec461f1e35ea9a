//! What a sample profile says: how often addresses ran, the count of each place, which lines a
//! profile has, in which order they stand, their totals, and how they are written and read; sums of
//! profiles, and how hot their lines are.
//!
//! A line stands at the end of a way: the function, the inlined calls that lead to it, and a line
//! of the innermost. All rules are said of lists of counted things; no tree is there. The types of
//! a range that ran and of a step of hits stand here as well. Definitions in `specs/`, and laws
//! about them as functions with an empty body.
#![tactic(auto)]

mod hit_laws;
mod laws;
mod ran_range;
mod step;

pub use hit_laws::{hits_are_within_times, hits_count_ranges, largest_is_one};
pub use laws::{only_ordered_is_in_order, ordered_is_in_order, orders_tell_apart};
pub use ran_range::RanRange;
pub use step::Step;
