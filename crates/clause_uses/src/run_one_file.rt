// One file, from its bytes to the output: `counts`.
ghost use Rattle.std.specs.Prelude.{◌≡◌, ℕ, List, None, Some};
ghost use Rattle.refusal.specs.declared.place.Place.{Place};
ghost use Rattle.sample_model.specs.Judging.{first_bad_of_text};
ghost use Rattle.io_edge.specs.MemoryInputs.{stored};
ghost use Rattle.command_model.specs.Answer.{in_file};
ghost use Rattle.command_model.specs.Command.{counts};
ghost use Rattle.clause_uses.specs.Run.{GrowsByCounts, IsEither, NoneFailed, command_in};

use io_edge::{MemoryInputs, MemorySink};
use pgo_run::{Status, run};
use std::alloc::Global;

/// `counts` of one file reports that it is missing, reports its first bad place, or writes its
/// counts. `NoMemory` may come instead, if no call fails.
pub fn one_file_is_counted(
    alloc: Global,
    words: &[Vec<u8>],
    inputs: &mut MemoryInputs,
    out: &mut MemorySink,
) -> Status
    requires { NoneFailed inputs.old out.old }
    ensures missing { (name : List ℕ) → command_in words.now ≡ Some (counts name) →
        stored inputs.old.files name ≡ None → NoneFailed inputs.new out.new →
        IsEither result (Status.NoSuchFile 1) Status.NoMemory }
    ensures bad { (name bytes : List ℕ) (place : Place) →
        command_in words.now ≡ Some (counts name) → stored inputs.old.files name ≡ Some bytes →
        first_bad_of_text 1 bytes ≡ Some place → NoneFailed inputs.new out.new →
        IsEither result (Status.Refused (in_file 1 place)) Status.NoMemory }
    ensures good { (name bytes : List ℕ) → command_in words.now ≡ Some (counts name) →
        stored inputs.old.files name ≡ Some bytes → first_bad_of_text 1 bytes ≡ None →
        NoneFailed inputs.new out.new → IsEither result Status.Done Status.NoMemory }
    ensures output { (name bytes : List ℕ) → command_in words.now ≡ Some (counts name) →
        stored inputs.old.files name ≡ Some bytes → first_bad_of_text 1 bytes ≡ None →
        result ≡ Status.Done → GrowsByCounts out.old out.new bytes }
{
    run(alloc, words, inputs, out)
}
