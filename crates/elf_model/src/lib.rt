//! What an ELF64 file says: its tables, the names and bytes of its sections, its live ranges of
//! addresses, its segments of code, and the places at which its headers are refused.
//!
//! Definitions in `specs/`, with examples in `proofs/`, and laws about them as functions with an
//! empty body.
//!
//! Source: System V gABI, "ELF Header", "Sections", "String Table", "Program Header".
#![tactic(auto)]

mod laws;

pub use laws::{live_ranges_are_code, sections_are_within};
