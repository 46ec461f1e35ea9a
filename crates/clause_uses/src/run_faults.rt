// The statuses that speak of failed calls, and the calls that open files.
ghost use Rattle.std.specs.Prelude.{◌≡◌, ◌<◌, ℕ, List, Some, false, IsSomeAnd};
ghost use Rattle.command_model.specs.Command.{check};
ghost use Rattle.clause_uses.specs.Run.{FitsOpensOfTwo, IsGoodBlockFile, NamesFile, NoneFailed, command_in};

use io_edge::{Inputs, MemoryInputs, MemorySink, Sink};
use pgo_run::{Status, run};
use std::alloc::Global;

/// `ReadFault` comes only if a call on the files failed, at a file that the command names.
pub fn a_read_fault_has_a_cause(
    alloc: Global,
    words: &[Vec<u8>],
    inputs: &mut MemoryInputs,
    out: &mut MemorySink,
) -> Status
    requires { NoneFailed inputs.old out.old }
    ensures failed { (k : ℕ) → result ≡ Status.ReadFault k → 0 < inputs.new.faults }
    ensures file { (k : ℕ) → result ≡ Status.ReadFault k →
        IsSomeAnd (command_in words.now) (λ command. NamesFile command k) }
{
    run(alloc, words, inputs, out)
}

/// `WriteFault` comes only if a call on the output failed and none on the files, and leaves the
/// output unfinished.
// Why: This is a statement on any files and any output. For files in memory, the other clauses
// imply that a write failed, and no call over them could need `write_fault` for it.
pub fn a_write_fault_has_a_cause<I: Inputs, O: Sink>(
    alloc: Global,
    words: &[Vec<u8>],
    inputs: &mut I,
    out: &mut O,
) -> Status
    requires no_file_failed { I.faults inputs.old ≡ 0 }
    requires no_write_failed { O.faults out.old ≡ 0 }
    ensures failed { result ≡ Status.WriteFault → 0 < O.faults out.new }
    ensures files { result ≡ Status.WriteFault → I.faults inputs.new ≡ 0 }
    ensures unfinished { result ≡ Status.WriteFault → O.finished out.new ≡ false }
{
    run(alloc, words, inputs, out)
}

/// A failed call on the files gives `ReadFault`, and one on the output `WriteFault`.
pub fn a_failed_call_is_reported(
    alloc: Global,
    words: &[Vec<u8>],
    inputs: &mut MemoryInputs,
    out: &mut MemorySink,
) -> Status
    requires { NoneFailed inputs.old out.old }
    ensures files { 0 < inputs.new.faults → (k : ℕ) × (result ≡ Status.ReadFault k) }
    ensures output { 0 < out.new.faults → result ≡ Status.WriteFault }
{
    run(alloc, words, inputs, out)
}

/// The two files of `check` are opened in order, the second one only if the first one is good.
pub fn files_are_opened_in_order(
    alloc: Global,
    words: &[Vec<u8>],
    inputs: &mut MemoryInputs,
    out: &mut MemorySink,
) -> Status
    requires { inputs.old.opens ≡ 0 }
    ensures opens { (blocks repairs : List ℕ) →
        command_in words.now ≡ Some (check blocks repairs) →
        FitsOpensOfTwo result inputs.new.opens }
    ensures good { (blocks repairs : List ℕ) →
        command_in words.now ≡ Some (check blocks repairs) → result ≡ Status.ReadFault 2 →
        IsGoodBlockFile inputs.old blocks }
{
    run(alloc, words, inputs, out)
}
