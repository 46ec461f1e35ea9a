//! What a profile says where code that never ran has lines as well, with count 0, so that a
//! compiler sees that it is cold and need not guess.
//!
//! Definitions in `specs/`, with an example in `proofs/`. A profile writes a line for each key that
//! has a count or a target; here some keys have lines besides.
#![tactic(auto)]

mod laws;

pub use laws::{lines_with_are_by_counts, without_more_keys_lines_are_as_ever};
