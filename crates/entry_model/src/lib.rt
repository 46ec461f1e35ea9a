//! The tables of abbreviations and the entries of units by the bytes that spell them, one behind
//! the other: the second wording of what `unit_model` read.
//!
//! Definitions in `specs/`, with examples in `proofs/`, and laws about them as functions with an
//! empty body.
//!
//! Source: DWARF 5, sections 7.5.2 to 7.5.6.
#![tactic(auto)]

mod laws;

pub use laws::{
    entries_stand_in_order, read_entries_are_spelled, read_tables_are_spelled,
    spelled_entries_are_read, spelled_tables_are_read, units_share_entries,
};
