//! The values of debugging information: which value the bytes of a form spell, and why bytes spell
//! none.
//!
//! Definitions in `specs/`, with examples in `proofs/`, and laws about them as functions with an
//! empty body.
//!
//! Source: DWARF 5, sections 7.5.5 and 7.5.6; DWARF 4, section 7.5.4.
#![tactic(auto)]

mod laws;

pub use laws::{no_spelling_begins_another, read_is_spelled, spelled_is_read};
