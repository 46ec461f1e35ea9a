//! Counts that are balanced: augmentations from counts within bounds and prices that fit them,
//! until as much enters each side as leaves it; or a set of sides that nothing more can leave.
//!
//! `start` sets each count to its weight moved into its bounds, which equal prices fit. While some
//! side has excess, `balance` gives what it can over one arc. Then it searches the nearest side
//! that lacks counts, lowers the prices of the sides that are nearer, and pushes counts along the
//! way there, which then costs nothing. The search goes on behind the push, if each step of the way
//! takes more and the source has more to give: where prices moved, what it knows is moved with
//! them. So the prices fit at all times: when no side has excess, the counts are least, and when no
//! side that lacks counts can be reached, the sides that were reached are a cut. It ends before
//! that where as many augmentations were made as are allowed. `solve_within` is all of that.
//!
//! Source: Ahuja, Magnanti and Orlin, "Network Flows", 9.7 (successive shortest paths).
#![tactic(auto)]

mod answer;
mod augmenting;
mod balancing;
mod excess;
mod giving;
mod prices;
mod starting;
mod within;

pub use answer::{flow_of, prices_of, reached};
pub use augmenting::Workspace;
pub use balancing::{Outcome, balance};
pub use excess::transfer;
pub use starting::{start, starting_count};
pub use within::solve_within;
