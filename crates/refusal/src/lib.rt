//! Where an input is refused, and why: kinds and places of refusals, which of them is the first,
//! and want of memory.
//!
//! An input is judged item by item, in a fixed order. `Place` is where the first bad item stands,
//! `Kind` why it is bad, and `refuse_if` judges one item. `Stop` and `NoMemory` are the answers of
//! a reading that ended early, `ItemStop` that of one item whose place the caller knows.
// Why: Every reader cites places and kinds, and none of these has to do with opening files. So this
// crate stands below all of them, and `io_edge` hands on none of it.
#![tactic(auto)]

mod kind;
mod laws;
mod place;

pub use kind::Kind;
pub use laws::places_come_in_order;
pub use place::{ItemStop, NoMemory, Place, Stop, refuse_if};
