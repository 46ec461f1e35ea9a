//! What the abbreviation tables and the units of debugging information say: headers, the entries
//! with their wanted attributes, and the first bad place.
//!
//! Definitions in `specs/`, with examples in `proofs/`.
//!
//! Source: DWARF 5, sections 7.5.1 to 7.5.5; DWARF 4, section 7.5.
#![tactic(auto)]
