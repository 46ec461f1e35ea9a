//! The place of an address (a key, or why there is none) and its factor: the function that holds
//! it, the calls inlined there, and the key that these have at the address's line.
//!
//! Functions and inlined calls are members of one flat list, in pre-order with depths. Definitions
//! in `specs/`, with examples in `proofs/`, and laws about them as functions with an empty body.
//!
//! Source: DWARF 5, sections 3.3.1 and 3.3.8.
#![tactic(auto)]

mod laws;
mod member;

pub use laws::{chains_are_paths, chains_go_down, keys_are_where_names_and_line_are};
pub use member::Member;
