//! The sides of a network that a search has reached: what it knows of each, and which of those that
//! are still open is the nearest.
//!
//! A search of a large network mostly touches a few sides. So marks carry the round in which they
//! were made, and `clear` begins a new round: it takes the same time however many sides there are.
//!
//! Source: Ahuja, Magnanti and Orlin, "Network Flows", 4.5 to 4.8 (Dijkstra's algorithm, Dial's
//! rows, heaps).
#![tactic(auto)]

mod frontier;
mod mark;
mod marks;
mod row;
mod rows;

pub use frontier::Frontier;
pub use mark::{Mark, Way};
pub use marks::Marks;
