//! The repair of each function of a block text: by what samples say of its blocks and edges.
//!
//! Each function is weighed, its network made and solved, one behind the other: `write` appends the
//! repairs as text, and `costs_of` adds up what they cost. Of a function nothing is kept for the
//! next but how many augmentations were counted.
#![tactic(auto)]

mod costs;
mod maker;
mod repaired;
mod solver;
mod weighed;

pub use costs::{Costs, costs_of};
pub use maker::write;
