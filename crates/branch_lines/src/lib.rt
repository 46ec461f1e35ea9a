//! One line of a branch text: the branches of a sample, or why it is refused, and what a load line
//! tells.
//!
//! The layer above goes through the lines of a text, and adds up what they tell. The text is what
//! `perf script -F ip,brstack --show-mmap-events` prints (perf-script(1)).
#![tactic(auto)]

mod line;
mod load;

pub use line::{MAX_KEPT, MAX_LINE_BYTES, read_line};
pub use load::{LoadLine, load_line};
