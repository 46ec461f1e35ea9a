//! The profile of a program and the report on its samples, by what a binary tells of its addresses.
//!
//! Definitions in `specs/`, with examples in `proofs/`: classes of branches and sampled ranges,
//! hits, counts over all addresses, and what is written of them: profile and report, repairs
//! between these, or a summary of all. The type of what is asked of repairs stands here as well.
#![tactic(auto)]

mod laws;
mod options;

pub use laws::summaries_are_determined;
pub use options::RepairOptions;
