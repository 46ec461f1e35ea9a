ghost use Rattle.std.specs.Prelude.{◌≡◌, ◌⊎◌, ◌↔◌, ℕ, List, true, false, None, IfSome, IsSomeAnd};
ghost use Rattle.std.specs.Io.KnownBytes.{Appends};
ghost use Rattle.io_edge.specs.Faults.{Rises};
ghost use Rattle.io_edge.specs.Sink.{AppendsPrefix};
ghost use Rattle.refusal.specs.declared.place.Place.{Place};
ghost use Rattle.command_model.specs.Answer.{answer_of, fails_check, no_such_file, refused, writes};
ghost use Rattle.command_model.specs.Command.{Command as TheCommand, command_of};
ghost use Rattle.command_model.specs.Good.{AreGoodBefore};
ghost use Rattle.program_edge.specs.Run.{ComesExactly, HasWritten, IsWithoutFault, IsWithoutOutput};
ghost use Rattle.program_edge.specs.Opens.{AgreesWithOpens, ReachesNamed};
ghost use Rattle.program_edge.specs.Output.{Carries};
ghost use Rattle.command_words.specs.Words.{meaning_of, texts_of};

use crate::profile::Profile;
use crate::{build, check, counts, lift, make, merge, summary, where_};
use command_words::{Command, parse};
use io_edge::{Inputs, Sink};
use program_edge::{Halt, Program, Status, from_samples, run_as};
use std::alloc::Global;

/// Carries out the command that the words spell: reads its files from `inputs` in the order of
/// their words, each judged before the next is opened, makes all output, and then writes it to
/// `out`. A branch text is judged line by line as it is read, and its first bad line ends the
/// reading.
///
/// `words` are those behind the program's name. The clauses on content hold where `inputs` tells
/// its files and `out` its bytes; `answer_of` says what the words come to over those files.
// Why: No clause says that each file was read to its end. Content says so: where inputs tell their
// files, a byte more can make a good file bad. Where they do not, a clause on what is left would
// say nothing.
pub fn run<I: Inputs, O: Sink>(
    alloc: Global,
    words: &[Vec<u8>],
    inputs: &mut I,
    out: &mut O,
) -> Status
    // Words that spell no command are told apart without memory, and nothing is touched.
    ensures usage { (result ≡ Status.Usage) ↔ (command_of (texts_of words.now) ≡ None) }
    ensures usage_touches_nothing { result ≡ Status.Usage → inputs.new ≡ inputs.old }

    // Each file that is missing, each first bad place and each failed check are told exactly.
    ensures no_such_file { IfSome (I.store inputs.old) (λ files. (k : ℕ) →
        ComesExactly result (Status.NoSuchFile k)
        (answer_of files (texts_of words.now) ≡ no_such_file k)) }
    ensures refused { IfSome (I.store inputs.old) (λ files. (place : Place) →
        ComesExactly result (Status.Refused place)
        (answer_of files (texts_of words.now) ≡ refused place)) }
    ensures check_failed { IfSome (I.store inputs.old) (λ files. (line : ℕ) →
        ComesExactly result (Status.CheckFailed line)
        (answer_of files (texts_of words.now) ≡ fails_check line)) }

    // `Done` comes only with the whole output written and finished, and it comes for good input.
    ensures done { result ≡ Status.Done → IfSome (I.store inputs.old) (λ files.
        HasWritten (answer_of files (texts_of words.now))
        (Appends (O.written out.old) (O.written out.new))) }
    ensures finished { result ≡ Status.Done → O.finished out.new ≡ true }
    ensures complete { IfSome (I.store inputs.old) (λ files.
        (command : TheCommand) (contents : List (List ℕ)) →
        answer_of files (texts_of words.now) ≡ writes command contents →
        ¬ Rises (I.faults inputs.old) (I.faults inputs.new) →
        ¬ Rises (O.faults out.old) (O.faults out.new) →
        (result ≡ Status.Done) ⊎ (result ≡ Status.NoMemory)) }

    // A fault is told only where a call failed, and no failed call is passed over. Files are opened
    // one by one, each behind good ones; where memory was refused, that they were good is not told.
    ensures read_fault { (k : ℕ) → result ≡ Status.ReadFault k →
        Rises (I.faults inputs.old) (I.faults inputs.new)
        × IsSomeAnd (command_of (texts_of words.now)) (λ command.
        ReachesNamed command k (I.opens inputs.old) (I.opens inputs.new)) }
    ensures opened { IfSome (command_of (texts_of words.now)) (λ command.
        AgreesWithOpens command result (I.opens inputs.old) (I.opens inputs.new)) }
    ensures good_before { IfSome (I.store inputs.old) (λ files. (k : ℕ) →
        result ≡ Status.ReadFault k → IsSomeAnd (command_of (texts_of words.now)) (λ command.
        AreGoodBefore files command k)) }
    ensures write_fault { result ≡ Status.WriteFault →
        Rises (O.faults out.old) (O.faults out.new)
        × (I.faults inputs.new ≡ I.faults inputs.old) × (O.finished out.new ≡ false) }
    ensures cut_off { result ≡ Status.WriteFault → IfSome (I.store inputs.old) (λ files.
        HasWritten (answer_of files (texts_of words.now))
        (AppendsPrefix (O.written out.old) (O.written out.new))) }
    ensures faults { IsWithoutFault result →
        (I.faults inputs.new ≡ I.faults inputs.old) × (O.faults out.new ≡ O.faults out.old) }

    // Before all output is made, nothing is written.
    ensures unwritten { IsWithoutOutput result → out.new ≡ out.old }
    ensures store { I.store inputs.new ≡ I.store inputs.old }
{
    run_as::<Pgo, I, O>(alloc, words, inputs, out)
}

/// The program `pgo`.
pub struct Pgo;

impl Program for Pgo {
    ghost use Rattle.command_model.specs.Command.{command_of};

    ghost asked = { command_of };

    fn output<I: Inputs>(
        alloc: Global,
        words: &[Vec<u8>],
        inputs: &mut I,
    ) -> Option<Result<Vec<u8>, Halt>> {
        let command = parse(words)?;
        Some(output(alloc, command, inputs))
    }
}

/// What a command writes.
fn output<I: Inputs>(alloc: Global, command: Command<'_>, inputs: &mut I) -> Result<Vec<u8>, Halt>
    ensures carried { Carries (meaning_of command.entry) (I.store inputs.old) result
        (I.opens inputs.old) (I.opens inputs.new) (I.faults inputs.old) (I.faults inputs.new) }
    ensures store { I.store inputs.new ≡ I.store inputs.old }
{
    match command {
        Command::Counts(perf) => counts::output(alloc, perf, inputs),
        Command::Where {
            options,
            binary,
            address,
        } => where_::output(alloc, options, binary, address, inputs),
        Command::Profile {
            options,
            binary,
            perf,
        } => from_samples::<Profile, I>(alloc, options, binary, perf, inputs),
        Command::Build {
            options,
            binary,
            perf,
            blocks,
        } => build::output(alloc, options, binary, perf, blocks, inputs),
        Command::Check { blocks, repairs } => check::output(alloc, blocks, repairs, inputs),
        Command::Make { part, functions } => make::file_output(alloc, part, functions),
        Command::MakeSum { functions } => make::summary_output(alloc, functions),
        Command::Merge(parts) => merge::output(alloc, &parts, inputs),
        Command::Summary(file) => summary::output(alloc, file, inputs),
        Command::Lift {
            options,
            binary,
            blocks,
            built,
        } => lift::output(alloc, options, binary, blocks, built, inputs),
    }
}
