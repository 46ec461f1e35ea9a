//! What is built: the profile of a binary, a repair of each function of a block text by its counts,
//! and the report; or a summary of all.
//!
//! Both stand on the profile that `profile_maker` makes, of the places that the samples and the
//! blocks ask for.
// Why: It is a crate of its own so that a profile does not wait for the proofs of the solver.
#![tactic(auto)]

mod builder;
mod summary;

pub use builder::build;
pub use summary::summarize;
