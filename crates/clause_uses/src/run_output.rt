// The output of a run, and the files after it.
ghost use Rattle.std.specs.Prelude.{◌≡◌, ◌≢◌, ℕ, List, true};
ghost use Rattle.io_edge.specs.MemoryInputs.{stored};
ghost use Rattle.command_model.specs.Answer.{writes};
ghost use Rattle.command_model.specs.Command.{Command};
ghost use Rattle.clause_uses.specs.Run.{GetsFirstPart, GetsOutput, IsEither, IsToWrite, NoneFailed, answer_in};

use io_edge::{MemoryInputs, MemorySink};
use pgo_run::{Status, run};
use std::alloc::Global;

/// Good files give `Done` or `NoMemory`, if no call fails.
pub fn good_files_are_done(
    alloc: Global,
    words: &[Vec<u8>],
    inputs: &mut MemoryInputs,
    out: &mut MemorySink,
) -> Status
    requires { NoneFailed inputs.old out.old }
    ensures { IsToWrite (answer_in inputs.old words.now) → NoneFailed inputs.new out.new →
        IsEither result Status.Done Status.NoMemory }
{
    run(alloc, words, inputs, out)
}

/// `Done` comes only for good files, with all of their output written and finished.
pub fn a_done_output_is_complete(
    alloc: Global,
    words: &[Vec<u8>],
    inputs: &mut MemoryInputs,
    out: &mut MemorySink,
) -> Status
    ensures good { result ≡ Status.Done → IsToWrite (answer_in inputs.old words.now) }
    ensures output { (command : Command) (contents : List (List ℕ)) → result ≡ Status.Done →
        answer_in inputs.old words.now ≡ writes command contents →
        GetsOutput out.old out.new command contents }
    ensures finished { result ≡ Status.Done → out.new.finished ≡ true }
{
    run(alloc, words, inputs, out)
}

/// `WriteFault` comes only for good files, with a first part of their output written.
pub fn a_cut_off_output_is_a_first_part(
    alloc: Global,
    words: &[Vec<u8>],
    inputs: &mut MemoryInputs,
    out: &mut MemorySink,
) -> Status
    ensures good { result ≡ Status.WriteFault → IsToWrite (answer_in inputs.old words.now) }
    ensures part { (command : Command) (contents : List (List ℕ)) → result ≡ Status.WriteFault →
        answer_in inputs.old words.now ≡ writes command contents →
        GetsFirstPart out.old out.new command contents }
{
    run(alloc, words, inputs, out)
}

/// An output that was touched is reported as done or cut off.
pub fn a_touched_output_is_reported(
    alloc: Global,
    words: &[Vec<u8>],
    inputs: &mut MemoryInputs,
    out: &mut MemorySink,
) -> Status
    ensures { out.new ≢ out.old → IsEither result Status.Done Status.WriteFault }
{
    run(alloc, words, inputs, out)
}

/// A run leaves each file as it was.
pub fn files_stay(
    alloc: Global,
    words: &[Vec<u8>],
    inputs: &mut MemoryInputs,
    out: &mut MemorySink,
) -> Status
    ensures { (name : List ℕ) → stored inputs.new.files name ≡ stored inputs.old.files name }
{
    run(alloc, words, inputs, out)
}
