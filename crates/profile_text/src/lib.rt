//! The text of a profile, as LLVM reads it: written from its lines, and read as its numbers.
//!
//! `write` appends the lines of a tree. `read` gives the numbers of a text, one for each head, key
//! and target, or its first bad line. `numbers_of` makes those of a profile of them.
#![tactic(auto)]

mod draft;
mod item;
mod line;
mod numbers;
mod parts;
mod path;
mod reading;
mod said;
mod stamps;
mod text;

pub use item::{Item, Profile, What};
pub use numbers::{numbers_of, root_of};
pub use reading::{read, read_behind};
pub use text::write;
