//! The report of a profile: the sampled branches and ranges with their classes, and what became of
//! each.
//!
//! `class_branches` and `class_ranges` say what each distinct branch and sampled range is. `write`
//! counts the classes, lists what is unmapped with its reason, and tells how many units of the
//! binary were read.
#![tactic(auto)]

mod branches;
mod classed;
mod line;
mod ranges;
mod report;
mod unmapped;

pub use classed::{Classed, class_branches, class_ranges};
pub use report::{BranchUnits, write};
