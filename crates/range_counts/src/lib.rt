//! How often addresses ran, summed over ranges in one sweep of their ends; the hits of an address,
//! the largest over some, and a walk over ascending ones.
//!
//! `sweep` makes `Hits` from any ranges: a list of steps, from each of which on the hits are the
//! same up to the next. `Hits::at` and `Hits::max_in` search the steps. A `Walk` answers for
//! ascending parts of the program in one pass over them.
#![tactic(auto)]

mod changes;
mod hits;
mod steps;
mod walk;

pub use changes::sweep;
pub use hits::Hits;
pub use profile_model::{RanRange, Step};
pub use walk::Walk;
