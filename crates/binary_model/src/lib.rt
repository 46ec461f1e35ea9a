//! A whole binary: its first bad place over all its parts in order, its members and sequences, and
//! the place of each of its addresses by names.
//!
//! Definitions in `specs/`, with examples in `proofs/`. The parts are those of the models below;
//! here they stand in the order in which a binary is judged.
#![tactic(auto)]
