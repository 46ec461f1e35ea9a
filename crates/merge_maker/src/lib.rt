//! What `merge` and `summary` write: profile texts, read, judged and summed, and how hot the lines
//! of one are.
//!
//! `Merge` takes one text after the other, each with its weight: its bad places are those behind
//! the texts before it. `summarize` is the summary of one text.
#![tactic(auto)]

mod merge;
mod summary;

pub use merge::Merge;
pub use summary::summarize;
