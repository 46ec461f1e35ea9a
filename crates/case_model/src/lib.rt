//! What a generated case is: a binary, a branch text and a block text of one program, made from the
//! number of its functions.
//!
//! Definitions alone, in `specs/`, and laws about them as functions with an empty body.
#![tactic(auto)]

mod laws;

pub use laws::{binaries_have_sizes, sections_are_where_they_are_said};
