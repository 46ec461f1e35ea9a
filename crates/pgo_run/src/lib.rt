//! The top call: from a command's words and the files that they name to the bytes that are written
//! and the status.
//!
//! The layer above calls `run` with its words, a store of files and a sink, prints `status_line`
//! and ends with `Status::code`.
#![tactic(auto)]

mod build;
mod check;
mod counts;
mod lift;
mod make;
mod merge;
mod profile;
mod program;
mod status;
mod summary;
mod where_;

pub use program::run;
pub use program_edge::{LINE_ROOM, Status};
pub use status::status_line;
