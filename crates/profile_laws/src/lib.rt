//! What follows from how a profile is defined: a total is the sum of what stands below it, the
//! lines are those of the counts alone, and a text without a bad place tells each number once.
#![tactic(auto)]

mod laws;

pub use laws::{lines_are_by_counts, numbers_stand_once, totals_add_up};
