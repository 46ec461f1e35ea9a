//! How often the blocks and edges of a function were sampled.
//!
//! Definitions alone, in `specs/`: of blocks over the keys of addresses and the counts of keys, of
//! edges over sampled branches and the ranges that ran. Laws about them are functions with an empty
//! body.
#![tactic(auto)]

mod laws;

pub use laws::{passing_holds_both, weight_is_one};
