//! Lemmas on lists and tests that proofs of several crates use and the library lacks.
#![tactic(auto)]
