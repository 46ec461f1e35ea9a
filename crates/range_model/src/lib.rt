//! What a value means as a text, as an address or as a list of ranges, with the first cause that
//! stands in the way; and the entries that the bytes of a range list spell.
//!
//! A range list is told in two steps: the entries that its bytes spell, and the ranges that these
//! entries mean, counted from the base that stands at each. Definitions in `specs/`, with examples
//! in `proofs/`.
//!
//! Source: DWARF 5, sections 2.17.3 and 7.25 to 7.28; DWARF 4, section 2.17.3.
#![tactic(auto)]
