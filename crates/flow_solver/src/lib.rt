//! Counts of least cost for the network of a function, with prices that show it, or a cut.
//!
//! `solve` starts from each weight moved into its bounds, which equal prices fit, and balances
//! these counts. When no side has excess, the counts are least, and when no side that lacks counts
//! can be reached, the sides that were reached are a cut. A network that takes many augmentations
//! is solved in phases, from coarse units to units of 1 (`flow_phases`).
//!
//! Source: Ahuja, Magnanti and Orlin, "Network Flows", 9.7 (successive shortest paths) and 3.3
//! (scaling).
#![tactic(auto)]

mod repair;

pub use repair::solve;
