//! The profile of a program and the report on its samples, as they are written, by any map of the
//! program's places.
//!
//! `Profile` classes the sampled branches and ranges once, and counts how often addresses ran, what
//! was called and what was entered. It appends the lines that come of these and the report, tells
//! their totals, and lends the counts of keys and the ranges that ran to what is weighed by them.
//! `Profile::make_with_cold` makes it with the lines that never ran, in the functions that it has.
#![tactic(auto)]

mod counted;
mod profile;
mod samples;
mod tree;

pub use profile::Profile;
pub use profile_report::BranchUnits;
pub use samples::Samples;
