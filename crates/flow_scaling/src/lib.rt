//! The same solver with each of its augmentations told to a ledger, within a stated number.
//!
//! `fits` says which networks have counts to start from below 2^36. `solve_scaled` solves these as
//! `flow_phases` does, and tells a ledger how many augmentations it took.
#![tactic(auto)]

mod ledger;
mod scaled;

pub use ledger::{Ledger, Steps, Tally};
pub use scaled::{fits, solve_scaled};
