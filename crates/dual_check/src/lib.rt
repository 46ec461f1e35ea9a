//! Whether counts of a function are least, or there are none, by what shows it: prices that fit the
//! counts, or a cut.
//!
//! No solver is needed, and no memory: `first_bad` names the first block or edge that breaks its
//! test, `accepts` says that there is none, so that no other counts cost less, and `accepts_cut`
//! that no counts conserve within bounds.
//!
//! Source: Ahuja, Magnanti and Orlin, "Network Flows", 6.7 (Hoffman's theorem) and 9.3 (reduced
//! costs).
#![tactic(auto)]

mod block;
mod fits;
mod spot;
mod sums;
mod verdict;

pub use spot::{Spot, first_bad};
pub use verdict::{accepts, accepts_cut};
