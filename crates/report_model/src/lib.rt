//! What a branch and a sampled range are, by the places and functions of their ends; and the report
//! of a profile, which counts each of them once.
//!
//! Definitions alone, in `specs/`, over any places and functions, and laws about them as functions
//! with an empty body. The types of the classes stand here as well.
#![tactic(auto)]

mod class;
mod class_laws;
mod laws;

pub use class::{Class, RangeClass, Reason};
pub use class_laws::{branches_add_up, ran_is_one_function, ranges_add_up};
pub use laws::{each_branch_once, each_range_once};
