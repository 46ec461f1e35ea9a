//! Branch stacks, counted: how often each branch was taken, and how often each range ran between
//! two branches, of a text whole or in pieces, as its addresses stand or moved by its load lines.
//!
//! The layer above makes `Counts`, reads a branch text into it, as one piece by `read_text` or in
//! any pieces by a `Reader`, and takes its pairs out. `read_pieces` feeds a list of pieces to a
//! reader, and says that it is the same as reading them joined. The text is what
//! `perf script -F ip,brstack` prints (perf-script(1), "brstack").
#![tactic(auto)]

mod loads;
mod pieces;
mod reader;
mod text;

pub use branch_counts::{Counts, CountsStop};
pub use pieces::read_pieces;
pub use reader::Reader;
pub use text::read_text;
