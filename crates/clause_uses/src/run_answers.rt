// The statuses that speak of the arguments and of the contents of files.
ghost use Rattle.std.specs.Prelude.{◌≡◌, ◌≢◌, ℕ, None};
ghost use Rattle.refusal.specs.declared.place.Place.{Place};
ghost use Rattle.command_model.specs.Answer.{fails_check, no_such_file, refused};
ghost use Rattle.clause_uses.specs.Run.{NoneFailed, IsEither, answer_in, command_in};

use io_edge::{MemoryInputs, MemorySink};
use pgo_run::{Status, run};
use std::alloc::Global;

/// Arguments that spell no command, and no others, give `Usage`, with no file or output touched.
pub fn bad_arguments_give_usage(
    alloc: Global,
    words: &[Vec<u8>],
    inputs: &mut MemoryInputs,
    out: &mut MemorySink,
) -> Status
    ensures usage { command_in words.now ≡ None → result ≡ Status.Usage }
    ensures files { command_in words.now ≡ None → inputs.new ≡ inputs.old }
    ensures output { command_in words.now ≡ None → out.new ≡ out.old }
    ensures only { command_in words.now ≢ None → result ≢ Status.Usage }
{
    run(alloc, words, inputs, out)
}

/// A missing file gives `NoSuchFile` with its number, or `NoMemory`, if no call fails.
pub fn a_missing_file_is_reported(
    alloc: Global,
    words: &[Vec<u8>],
    inputs: &mut MemoryInputs,
    out: &mut MemorySink,
) -> Status
    requires { NoneFailed inputs.old out.old }
    ensures number { (k : ℕ) → answer_in inputs.old words.now ≡ no_such_file k →
        NoneFailed inputs.new out.new → IsEither result (Status.NoSuchFile k) Status.NoMemory }
    ensures only { (k : ℕ) → result ≡ Status.NoSuchFile k →
        answer_in inputs.old words.now ≡ no_such_file k }
{
    run(alloc, words, inputs, out)
}

/// The first bad place of the files gives `Refused` with it, or `NoMemory`, if no call fails.
pub fn a_bad_place_is_reported(
    alloc: Global,
    words: &[Vec<u8>],
    inputs: &mut MemoryInputs,
    out: &mut MemorySink,
) -> Status
    requires { NoneFailed inputs.old out.old }
    ensures place { (place : Place) → answer_in inputs.old words.now ≡ refused place →
        NoneFailed inputs.new out.new → IsEither result (Status.Refused place) Status.NoMemory }
    ensures only { (place : Place) → result ≡ Status.Refused place →
        answer_in inputs.old words.now ≡ refused place }
{
    run(alloc, words, inputs, out)
}

/// The first line that fails a check gives `CheckFailed` with it, or `NoMemory`, if no call fails.
pub fn a_failed_check_is_reported(
    alloc: Global,
    words: &[Vec<u8>],
    inputs: &mut MemoryInputs,
    out: &mut MemorySink,
) -> Status
    requires { NoneFailed inputs.old out.old }
    ensures line { (line : ℕ) → answer_in inputs.old words.now ≡ fails_check line →
        NoneFailed inputs.new out.new → IsEither result (Status.CheckFailed line) Status.NoMemory }
    ensures only { (line : ℕ) → result ≡ Status.CheckFailed line →
        answer_in inputs.old words.now ≡ fails_check line }
{
    run(alloc, words, inputs, out)
}
