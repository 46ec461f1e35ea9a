//! What each branch and each sampled range is, told by any map of places.
//!
//! `classify` says of a branch whether it enters a function, stays inside the program or cannot be
//! told of places, and why. `classify_range` says of a sampled range whether it ran.
#![tactic(auto)]

mod branch;
mod range;

pub use branch::classify;
pub use range::classify_range;
pub use report_model::{Class, RangeClass, Reason};
