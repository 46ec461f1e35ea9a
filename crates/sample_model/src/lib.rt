//! What a branch text says: which of its lines are samples, the branches and sampled ranges of a
//! sample, its distinct pairs in order, its load lines and how they move addresses, and which line
//! of the text is its first bad one.
//!
//! The text is what `perf script -F ip,brstack` prints (perf-script(1), "brstack"). Definitions in
//! `specs/`, with examples in `proofs/`, and laws about them as functions with an empty body. The
//! types of a load and of a pair of addresses that were counted stand here as well.
#![tactic(auto)]

mod laws;
mod load;
mod pair;

pub use laws::{
    bad_places_stay, distinct_pairs_are_unique, distinct_pairs_ascend, entries_are_spelled,
    ranges_move_by_their_ends,
};
pub use load::Load;
pub use pair::Pair;
