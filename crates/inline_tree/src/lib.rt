//! The functions of a file and the calls inlined into them, with their pieces and names.
//!
//! `gather` reads the units one behind the other, and each entry of a function or an inlined call:
//! its pieces, and where it has any, its name and lines. `into_tree` puts all into one list, and
//! `make` does both.
//!
//! Source: DWARF 5, sections 2.17, 3.3.1 and 3.3.8.
#![tactic(auto)]

mod collected;
mod entries;
mod member;
mod source;
mod tree;

pub use source::Source;
pub use tree::{Gathered, InlineTree, gather, make};
