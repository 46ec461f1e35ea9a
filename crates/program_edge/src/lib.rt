//! The edge that both programs share: from a program's words and the files that they name to the
//! bytes that are written and the status.
//!
//! A program says by `Program` what its words ask for and what is written of that, and `run_as`
//! carries it out. A command reads its files by `read_file` or `sampled`, in order, each within its
//! limit and judged before the next is opened; `in_file` tells of which file a bad place is. What
//! ends it before its output is made is a `Halt`.
#![tactic(auto)]

mod branch_text;
mod halt;
mod order;
mod samples;
mod status;
mod top_call;

pub use branch_text::count_text;
pub use halt::{Halt, in_file};
pub use order::{
    BINARY, MAX_BINARY_BYTES, MAX_BLOCK_BYTES, MAX_PROFILE_BYTES, MAX_REPAIR_BYTES, PERF,
    open_file, read_file, too_large,
};
pub use samples::{FromSamples, from_samples, sampled};
pub use status::{LINE_ROOM, Status, status_line};
pub use top_call::{Program, run_as};
