//! The program `pgo-cold`: adds to a profile a line of count 0 for each place of a binary that
//! never ran, in the functions that the profile has.
//!
//! `main` hands its words, the system's files and the standard output to the top call,
//! `program::run`, prints the status on the error output, and ends with the status's code. `--help`
//! (or `-h`) and `--version`, as the only word, are answered here.
// Why: It is a second program, since what `profile`, `build` and `merge` write is fixed. Its lines
// are for the compiler, and add nothing to sums.
#![tactic(auto)]

mod about;
mod program;
mod sampled;
mod text;
mod usage;

use io_edge::{Inputs, Sink};
use program::PgoCold;
use program_edge::{LINE_ROOM, Status};
use program_main::{Called, main_of};
use std::alloc::Global;
use std::process::ExitCode;

fn main(rt: HostRuntime) -> ExitCode {
    main_of::<PgoCold, _>(&rt)
}

impl Called for PgoCold {
    fn answer_to(words: &[Vec<u8>]) -> Option<&'static [u8]> {
        about::answer_to(words)
    }

    fn run<I: Inputs, O: Sink>(
        alloc: Global,
        words: &[Vec<u8>],
        inputs: &mut I,
        out: &mut O,
    ) -> Status {
        program::run(alloc, words, inputs, out)
    }

    fn status_line(status: &Status, buf: &mut [u8; LINE_ROOM]) -> usize {
        usage::status_line(status, buf)
    }
}
