// What the program's words ask for, and what is written of that.
ghost use Rattle.std.specs.Prelude.{◌≡◌, ◌⊎◌, ◌↔◌, ℕ, List, true, false, None, IfSome, IsSomeAnd};
ghost use Rattle.std.specs.Io.KnownBytes.{Appends};
ghost use Rattle.io_edge.specs.Faults.{Rises};
ghost use Rattle.io_edge.specs.Sink.{AppendsPrefix};
ghost use Rattle.refusal.specs.declared.place.Place.{Place};
ghost use Rattle.command_model.specs.Answer.{answer_of_words, fails_check, no_such_file, refused, writes};
ghost use Rattle.command_model.specs.Cold.{cold_of};
ghost use Rattle.command_model.specs.Command.{Command};
ghost use Rattle.command_model.specs.Good.{AreGoodBefore};
ghost use Rattle.command_words.specs.Words.{cold_meaning, texts_of};
ghost use Rattle.program_edge.specs.Run.{ComesExactly, HasWritten, IsWithoutFault, IsWithoutOutput};
ghost use Rattle.program_edge.specs.Opens.{AgreesWithOpens, ReachesNamed};
ghost use Rattle.program_edge.specs.Output.{Carries};

use crate::sampled::Sampled;
use crate::text::of_text;
use command_words::{Cold, parse_cold};
use io_edge::{Inputs, Sink};
use program_edge::{Halt, Program, Status, from_samples, run_as};
use std::alloc::Global;

/// Carries out what the words ask for. It reads the files from `inputs` in the order of the words,
/// each judged before the next is opened, makes the whole output, and then writes it to `out`.
///
/// `words` are those after the program's name. The clauses on content apply if `inputs` shows its
/// files and `out` its bytes: `cold_of` defines the command that the words spell, and
/// `answer_of_words` the answer to it over those files.
pub(crate) fn run<I: Inputs, O: Sink>(
    alloc: Global,
    words: &[Vec<u8>],
    inputs: &mut I,
    out: &mut O,
) -> Status
    // Words that spell no command are told apart without memory, and nothing is touched.
    ensures usage { (result ≡ Status.Usage) ↔ (cold_of (texts_of words.now) ≡ None) }
    ensures usage_touches_nothing { result ≡ Status.Usage → inputs.new ≡ inputs.old }

    // Each file that is missing, each first bad place and each failed check are told exactly.
    ensures no_such_file { IfSome (I.store inputs.old) (λ files. (k : ℕ) →
        ComesExactly result (Status.NoSuchFile k)
        (answer_of_words files (cold_of (texts_of words.now)) ≡ no_such_file k)) }
    ensures refused { IfSome (I.store inputs.old) (λ files. (place : Place) →
        ComesExactly result (Status.Refused place)
        (answer_of_words files (cold_of (texts_of words.now)) ≡ refused place)) }
    ensures check_failed { IfSome (I.store inputs.old) (λ files. (line : ℕ) →
        ComesExactly result (Status.CheckFailed line)
        (answer_of_words files (cold_of (texts_of words.now)) ≡ fails_check line)) }

    // `Done` comes only with the whole output written and finished, and it comes for good input.
    ensures done { result ≡ Status.Done → IfSome (I.store inputs.old) (λ files.
        HasWritten (answer_of_words files (cold_of (texts_of words.now)))
        (Appends (O.written out.old) (O.written out.new))) }
    ensures finished { result ≡ Status.Done → O.finished out.new ≡ true }
    ensures complete { IfSome (I.store inputs.old) (λ files.
        (command : Command) (contents : List (List ℕ)) →
        answer_of_words files (cold_of (texts_of words.now)) ≡ writes command contents →
        ¬ Rises (I.faults inputs.old) (I.faults inputs.new) →
        ¬ Rises (O.faults out.old) (O.faults out.new) →
        (result ≡ Status.Done) ⊎ (result ≡ Status.NoMemory)) }

    // A fault is told only where a call failed, and no failed call is passed over. Files are opened
    // one by one, each behind good ones; where memory was refused, that they were good is not told.
    ensures read_fault { (k : ℕ) → result ≡ Status.ReadFault k →
        Rises (I.faults inputs.old) (I.faults inputs.new)
        × IsSomeAnd (cold_of (texts_of words.now)) (λ command.
        ReachesNamed command k (I.opens inputs.old) (I.opens inputs.new)) }
    ensures opened { IfSome (cold_of (texts_of words.now)) (λ command.
        AgreesWithOpens command result (I.opens inputs.old) (I.opens inputs.new)) }
    ensures good_before { IfSome (I.store inputs.old) (λ files. (k : ℕ) →
        result ≡ Status.ReadFault k → IsSomeAnd (cold_of (texts_of words.now)) (λ command.
        AreGoodBefore files command k)) }
    ensures write_fault { result ≡ Status.WriteFault →
        Rises (O.faults out.old) (O.faults out.new)
        × (I.faults inputs.new ≡ I.faults inputs.old) × (O.finished out.new ≡ false) }
    ensures cut_off { result ≡ Status.WriteFault → IfSome (I.store inputs.old) (λ files.
        HasWritten (answer_of_words files (cold_of (texts_of words.now)))
        (AppendsPrefix (O.written out.old) (O.written out.new))) }
    ensures faults { IsWithoutFault result →
        (I.faults inputs.new ≡ I.faults inputs.old) × (O.faults out.new ≡ O.faults out.old) }

    // Before all output is made, nothing is written.
    ensures unwritten { IsWithoutOutput result → out.new ≡ out.old }
    ensures store { I.store inputs.new ≡ I.store inputs.old }
{
    run_as::<PgoCold, I, O>(alloc, words, inputs, out)
}

/// The program `pgo-cold`.
pub(crate) struct PgoCold;

impl Program for PgoCold {
    ghost use Rattle.command_model.specs.Cold.{cold_of};

    ghost asked = { cold_of };

    fn output<I: Inputs>(
        alloc: Global,
        words: &[Vec<u8>],
        inputs: &mut I,
    ) -> Option<Result<Vec<u8>, Halt>> {
        let asked = parse_cold(words)?;
        Some(output(alloc, asked, inputs))
    }
}

/// What is written for what the words ask for.
///
/// # Errors
/// Those of reading file 1, the first bad place of the binary, those of reading file 2, and the
/// first bad place of the text in it.
fn output<I: Inputs>(alloc: Global, asked: Cold<'_>, inputs: &mut I) -> Result<Vec<u8>, Halt>
    ensures carried { Carries (cold_meaning asked.entry) (I.store inputs.old) result
        (I.opens inputs.old) (I.opens inputs.new) (I.faults inputs.old) (I.faults inputs.new) }
    ensures store { I.store inputs.new ≡ I.store inputs.old }
{
    match asked {
        Cold::Text {
            options,
            binary,
            profile,
        } => of_text(alloc, options, binary, profile, inputs),
        Cold::Profile {
            options,
            binary,
            perf,
        } => from_samples::<Sampled, I>(alloc, options, binary, perf, inputs),
    }
}
