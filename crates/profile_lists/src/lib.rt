//! The lists that a profile is made of: the ranks of names, the functions called from each key, the
//! lines of sorted ways with their totals, and one count for each key.
//!
//! Ranks are numbers that compare as the names do, by a weight and then by bytes: ways are told by
//! them, so that they are compared number by number. Calls are added up by key and callee, those
//! made most often first. A key's count comes from the parts of a program and how often their
//! addresses ran.
#![tactic(auto)]

mod counts;
mod item;
mod laws;
mod lists;
mod pairs;
mod ranks;
mod rows;
mod shared;
mod sums;

pub use counts::counts_of;
pub use item::{Item, Kind, Step, sort_items};
pub use laws::counts_are_those_of_places;
pub use lists::{Target, Targets, targets_of};
pub use pairs::Call;
pub use ranks::{Ranks, ranks_of};
pub use rows::{Row, rows_of};
