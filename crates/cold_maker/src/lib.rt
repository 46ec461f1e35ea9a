//! What `pgo-cold` writes: a profile text, read and judged behind a binary, or the profile of a
//! binary and its samples, with a line of count 0 for each place of the binary that never ran, in
//! the functions that the profile has.
//!
//! The text is read behind the names and keys of the binary, so that the binary's keys are the
//! first ones. Those among them whose functions stand in the profile have lines, with count 0
//! where the text tells none. Lines of count 0 that the text has stay.
#![tactic(auto)]

mod besides;
mod maker;
mod sampled;
mod told;
mod tree;

pub use maker::cold;
pub use sampled::cold_profile;
pub use tree::tree_of;
