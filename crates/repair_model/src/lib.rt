//! What a repair text says: for each function of a block text counts that repair its weights, or a
//! cut that shows that there are none; which line of the text is its first bad one, and which the
//! first that does not keep what it promises.
//!
//! Definitions in `specs/`, with examples in `proofs/`. The same lines are said both ways: how a
//! repair is written, and which repairs a text spells.
#![tactic(auto)]

mod laws;

pub use laws::{
    good_repairs_are_whole, passing_lines_repair, repairs_are_apart, written_lines_are_read,
    written_repairs_are_read,
};
