//! What a block text says: the functions of a binary as basic blocks and the edges between them,
//! and which line of the text is its first bad one.
//!
//! Definitions in `specs/`, with examples in `proofs/`. The types of a function's parts stand here
//! as well, since the text, the flow on a function and its repair speak of them.
#![tactic(auto)]

mod parts;

pub use parts::{Block, Bound, Edge, Weight};
