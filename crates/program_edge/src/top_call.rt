// The top call of a program, whichever it is.
ghost use Rattle.std.specs.Prelude.{◌≡◌, ◌⊎◌, ◌↔◌, ℕ, List, Option, true, false, None, IfSome, IsSomeAnd};
ghost use Rattle.std.specs.Io.KnownBytes.{Appends};
ghost use Rattle.io_edge.specs.Faults.{Rises};
ghost use Rattle.io_edge.specs.Sink.{AppendsPrefix};
ghost use Rattle.refusal.specs.declared.place.Place.{Place};
ghost use Rattle.command_model.specs.Answer.{answer_of_words, fails_check, no_such_file, refused, writes};
ghost use Rattle.command_model.specs.Command.{Command};
ghost use Rattle.command_model.specs.Good.{AreGoodBefore};
ghost use Rattle.command_words.specs.Words.{texts_of};
ghost use Rattle.program_edge.specs.Run.{ComesExactly, HasWritten, IsWithoutFault, IsWithoutOutput};
ghost use Rattle.program_edge.specs.Opens.{AgreesWithOpens, ReachesNamed};
ghost use Rattle.program_edge.specs.Output.{CarriesAsked};

use crate::halt::Halt;
use crate::status::Status;
use io_edge::{Inputs, Sink, write_all};
use std::alloc::Global;

/// A program that writes what its words ask for.
pub trait Program {
    /// The command that the texts of some words spell, if they spell one.
    ghost asked: { List (List ℕ) → Option Command };

    /// What is written for the command that the words behind the program's name spell, or what ends
    /// it before anything is written; `None` where they spell none.
    fn output<I: Inputs>(
        alloc: Global,
        words: &[Vec<u8>],
        inputs: &mut I,
    ) -> Option<Result<Vec<u8>, Halt>>
        ensures carried { CarriesAsked (asked (texts_of words.now)) (I.store inputs.old) result
            (I.opens inputs.old) (I.opens inputs.new) (I.faults inputs.old) (I.faults inputs.new) }
        ensures untouched { result ≡ None → inputs.new ≡ inputs.old }
        ensures store { I.store inputs.new ≡ I.store inputs.old };
}

/// Carries out the command that the words spell for this program: reads its files from `inputs` in
/// the order of their words, each judged before the next is opened, makes all output, and then
/// writes it to `out`.
///
/// `words` are those behind the program's name. The clauses on content hold where `inputs` tells
/// its files and `out` its bytes; `answer_of_words` says what the command comes to over those
/// files.
// Why: All output is held before any of it is written, so that want of memory at the last of ten
// thousand functions leaves no half output. It costs the output's size in memory.
pub fn run_as<P: Program, I: Inputs, O: Sink>(
    alloc: Global,
    words: &[Vec<u8>],
    inputs: &mut I,
    out: &mut O,
) -> Status
    // Words that spell no command are told apart without memory, and nothing is touched.
    ensures usage { (result ≡ Status.Usage) ↔ (P.asked (texts_of words.now) ≡ None) }
    ensures usage_touches_nothing { result ≡ Status.Usage → inputs.new ≡ inputs.old }

    // Each file that is missing, each first bad place and each failed check are told exactly.
    ensures no_such_file { IfSome (I.store inputs.old) (λ files. (k : ℕ) →
        ComesExactly result (Status.NoSuchFile k)
        (answer_of_words files (P.asked (texts_of words.now)) ≡ no_such_file k)) }
    ensures refused { IfSome (I.store inputs.old) (λ files. (place : Place) →
        ComesExactly result (Status.Refused place)
        (answer_of_words files (P.asked (texts_of words.now)) ≡ refused place)) }
    ensures check_failed { IfSome (I.store inputs.old) (λ files. (line : ℕ) →
        ComesExactly result (Status.CheckFailed line)
        (answer_of_words files (P.asked (texts_of words.now)) ≡ fails_check line)) }

    // `Done` comes only with the whole output written and finished, and it comes for good input.
    ensures done { result ≡ Status.Done → IfSome (I.store inputs.old) (λ files.
        HasWritten (answer_of_words files (P.asked (texts_of words.now)))
        (Appends (O.written out.old) (O.written out.new))) }
    ensures finished { result ≡ Status.Done → O.finished out.new ≡ true }
    ensures complete { IfSome (I.store inputs.old) (λ files.
        (command : Command) (contents : List (List ℕ)) →
        answer_of_words files (P.asked (texts_of words.now)) ≡ writes command contents →
        ¬ Rises (I.faults inputs.old) (I.faults inputs.new) →
        ¬ Rises (O.faults out.old) (O.faults out.new) →
        (result ≡ Status.Done) ⊎ (result ≡ Status.NoMemory)) }

    // A fault is told only where a call failed, and no failed call is passed over. Files are opened
    // one by one, each behind good ones; where memory was refused, that they were good is not told.
    ensures read_fault { (k : ℕ) → result ≡ Status.ReadFault k →
        Rises (I.faults inputs.old) (I.faults inputs.new)
        × IsSomeAnd (P.asked (texts_of words.now)) (λ command.
        ReachesNamed command k (I.opens inputs.old) (I.opens inputs.new)) }
    ensures opened { IfSome (P.asked (texts_of words.now)) (λ command.
        AgreesWithOpens command result (I.opens inputs.old) (I.opens inputs.new)) }
    ensures good_before { IfSome (I.store inputs.old) (λ files. (k : ℕ) →
        result ≡ Status.ReadFault k → IsSomeAnd (P.asked (texts_of words.now)) (λ command.
        AreGoodBefore files command k)) }
    ensures write_fault { result ≡ Status.WriteFault →
        Rises (O.faults out.old) (O.faults out.new)
        × (I.faults inputs.new ≡ I.faults inputs.old) × (O.finished out.new ≡ false) }
    ensures cut_off { result ≡ Status.WriteFault → IfSome (I.store inputs.old) (λ files.
        HasWritten (answer_of_words files (P.asked (texts_of words.now)))
        (AppendsPrefix (O.written out.old) (O.written out.new))) }
    ensures faults { IsWithoutFault result →
        (I.faults inputs.new ≡ I.faults inputs.old) × (O.faults out.new ≡ O.faults out.old) }

    // Before all output is made, nothing is written.
    ensures unwritten { IsWithoutOutput result → out.new ≡ out.old }
    ensures store { I.store inputs.new ≡ I.store inputs.old }
{
    let Some(made) = P::output(alloc, words, inputs) else {
        return Status::Usage;
    };
    let text = match made {
        Ok(text) => text,
        Err(halt) => return Status::from(halt),
    };
    match write_all(out, &text) {
        Ok(()) => Status::Done,
        Err(_) => Status::WriteFault,
    }
}
