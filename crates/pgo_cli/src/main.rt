//! The program `pgo`: `main` hands its words, the system's files and the standard output to the top
//! call, `pgo_run::run`, prints the status on the error output, and ends with the status's code.
//!
//! `--help` (or `-h`) and `--version`, as the only word, and `--help` with the name of a command or
//! of a kind of refusal are answered here.
#![tactic(auto)]

mod about;
mod remedies;
mod topics;

use io_edge::{Inputs, Sink};
use pgo_run::{LINE_ROOM, Status};
use program_main::{Called, main_of};
use std::alloc::Global;
use std::process::ExitCode;

fn main(rt: HostRuntime) -> ExitCode {
    main_of::<PgoProgram, _>(&rt)
}

/// The program `pgo`.
struct PgoProgram;

impl Called for PgoProgram {
    fn answer_to(words: &[Vec<u8>]) -> Option<&'static [u8]> {
        about::answer_to(words)
    }

    fn run<I: Inputs, O: Sink>(
        alloc: Global,
        words: &[Vec<u8>],
        inputs: &mut I,
        out: &mut O,
    ) -> Status {
        pgo_run::run(alloc, words, inputs, out)
    }

    fn status_line(status: &Status, buf: &mut [u8; LINE_ROOM]) -> usize {
        pgo_run::status_line(status, buf)
    }
}
