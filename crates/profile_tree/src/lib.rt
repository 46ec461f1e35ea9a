//! A profile in memory: its numbers, and its lines in the order in which they are written.
//!
//! `Numbers` are the count of each key, the calls from keys and the heads: from segments and hits,
//! from counts that are stated, or as they are. `tree_of` makes the lines of them, also where more
//! keys have lines though they never ran; `standing_keys` are those of the functions that stand in
//! the profile. `build` and `from_counts` are both steps in one call.
//!
//! The tree of functions and inlined calls is flat: a line knows its depth, and what belongs to a
//! function or a call stands behind it, one deeper.
#![tactic(auto)]

mod counted;
mod fit;
mod head;
mod items;
mod key_count;
mod line;
mod lines;
mod numbers;
mod order;
mod standing;
mod sums;
mod tree;

pub use counted::{build, from_counts, tree_of};
pub use head::Head;
pub use key_count::KeyCount;
pub use line::{Line, Target};
pub use numbers::Numbers;
pub use profile_lists::Call;
pub use standing::standing_keys;
pub use tree::Tree;
