//! The profile in which repaired counts of blocks stand on the lines: each key that a block holds
//! has the largest repaired count of these blocks, and all other numbers are those that were read.
//!
//! Blocks with counts become spans, laid over one another so that at each address the largest count
//! stands. Each segment then finds the largest count over it by search, and a key has the largest
//! of its segments.
#![tactic(auto)]

mod held;
mod laws;
mod lines;
mod spans;
mod stated;

pub use laws::lines_are_lifted;
pub use lines::lift;
