// From outside to a program's top call, and back.
ghost use Rattle.std.specs.Prelude.{◌≤◌};

use crate::words::{WordsStop, read_words};
use io_edge::{FileInputs, Inputs, Sink, StdSink, write_all};
use program_edge::{LINE_ROOM, Status};
use std::alloc::Global;
use std::io;
use std::process::ExitCode;
use std::rt::{Env, Files};

/// A program that is called from outside.
pub trait Called {
    /// The answer to words that ask about the program itself, where they do.
    fn answer_to(words: &[Vec<u8>]) -> Option<&'static [u8]>;

    /// The program's top call, for other words.
    fn run<I: Inputs, O: Sink>(
        alloc: Global,
        words: &[Vec<u8>],
        inputs: &mut I,
        out: &mut O,
    ) -> Status;

    /// Writes the status's line for the error output to the front of `buf`, and answers how many
    /// bytes it has.
    fn status_line(status: &Status, buf: &mut [u8; LINE_ROOM]) -> usize
        ensures { result ≤ LINE_ROOM };
}

/// What the program's `main` does, and its exit status.
pub fn main_of<C: Called, R: AllocGlobal + Env + Files + Print + Eprint>(rt: &R) -> ExitCode {
    let status = answer::<C, R>(rt);
    report::<C, R>(rt, &status);
    ExitCode::from(status.code())
}

/// Carries out the program's words.
fn answer<C: Called, R: AllocGlobal + Env + Files + Print>(rt: &R) -> Status {
    let alloc = rt.alloc();
    let words = match read_words(rt, alloc) {
        Ok(words) => words,
        Err(WordsStop::NoMemory) => return Status::NoMemory,
        Err(WordsStop::TooLong) => return Status::Usage,
    };
    let mut out = StdSink::new(io::writer(rt));
    match C::answer_to(&words) {
        Some(text) => match write_all(&mut out, text) {
            Ok(()) => Status::Done,
            Err(_) => Status::WriteFault,
        },
        None => C::run(alloc, &words, &mut FileInputs::new(rt), &mut out),
    }
}

/// Prints the status's line. Nothing can be said where even that fails; the exit status tells.
fn report<C: Called, R: Eprint>(rt: &R, status: &Status) {
    let mut line = [0; LINE_ROOM];
    let len = C::status_line(status, &mut line);
    if let Ok(text) = str::from_utf8(&line[..len]) {
        let _ = rt.eprint(text);
    }
}
