// The samples that a branch text says of a binary, counted, and commands that are made of both.
ghost use Rattle.std.specs.Prelude.{◌≡◌, ℕ, Bool, List, [], ◌∷◌, Option, None, true, IfOk};
ghost use Rattle.std.specs.Option.{option_map};
ghost use Rattle.text_model.specs.Lines.{lines_of};
ghost use Rattle.sample_model.specs.Judging.{first_bad_of_text};
ghost use Rattle.sample_model.specs.Moves.{LoadMap};
ghost use Rattle.branch_counts.specs.Tally.{Tells};
ghost use Rattle.branch_stacks.specs.Reader.{new_reading_by};
ghost use Rattle.binary_model.specs.Binary.{first_bad_of_binary};
ghost use Rattle.binary_places.specs.Binary.{IsBinary};
ghost use Rattle.output_model.specs.Output.{loading_of, sampled_by};
ghost use Rattle.output_model.specs.Program.{Program, program_of};
ghost use Rattle.report_model.specs.Report.{Sampled};
ghost use Rattle.command_model.specs.Command.{Command};
ghost use Rattle.command_model.specs.Files.{IsOutput, alone, failed_line, file_at, files_of};
ghost use Rattle.command_model.specs.Options as model;
ghost use Rattle.command_words.specs.Words.{told_options};
ghost use Rattle.program_edge.specs.Output.{Carries, TakesFile};
ghost use Rattle.program_edge.specs.Samples.{CountsFile};

use crate::branch_text::count_text;
use crate::halt::{Halt, in_file};
use crate::order::{BINARY, MAX_BINARY_BYTES, PERF, open_file, read_file};
use binary_places::{Binary, read};
use branch_stacks::{Counts, Reader};
use command_words::Options;
use io_edge::Inputs;
use load_model::LoadSegment;
use refusal::NoMemory;
use std::alloc::Global;

/// The samples in file 2, of this name, whose addresses are moved where the binary has a name in
/// load lines; `loads` are the binary's segments of code.
///
/// # Errors
/// Those of reading file 2, and the first bad place of its text.
pub fn sampled<I: Inputs>(
    alloc: Global,
    inputs: &mut I,
    perf: &[u8],
    map: Option<&[u8]>,
    loads: &[LoadSegment],
) -> Result<Counts, Halt>
    ensures read { TakesFile (CountsFile PERF
        (option_map (λ name. record { name = name.now; segments = loads.now }) map.entry))
        PERF perf.now (I.store inputs.old) result
        (I.opens inputs.old) (I.opens inputs.new) (I.faults inputs.old) (I.faults inputs.new) }
    ensures ranged { IfOk result (λ counts. counts.with_ranges ≡ true) }
    ensures store { I.store inputs.new ≡ I.store inputs.old }
{
    open_file(inputs, PERF, perf)?;
    let reader = reader_of(alloc, map, loads)?;
    let mut counts = Counts::new(alloc)?;
    count_text(inputs, PERF, reader, &mut counts)?;
    Ok(counts)
}

/// A reader of file 2 that moves addresses, where the binary has a name in load lines.
fn reader_of(alloc: Global, map: Option<&[u8]>, loads: &[LoadSegment]) -> Result<Reader, NoMemory>
    ensures { IfOk result (λ reader. reader ≡ new_reading_by
        (option_map (λ name. record { name = name.now; segments = loads.now }) map.entry) PERF) }
{
    match map {
        Some(name) => Reader::with_loads(alloc, PERF, name, loads),
        None => Reader::new(alloc, PERF),
    }
}

/// A command that makes its output of a binary and its samples, which are files 1 and 2.
pub trait FromSamples {
    /// The command with these options, by the names of its files.
    ghost command: { model.Options → List ℕ → List ℕ → Command };

    /// The text of a program and of what was sampled of it.
    ghost text: { Program → Sampled → List ℕ };

    /// Makes the text of a binary and of what was counted.
    fn make(alloc: Global, binary: Binary<'_>, counts: Counts) -> Result<Vec<u8>, NoMemory>
        requires { (file : List ℕ) × (base : Bool) × IsBinary file base binary }
        ensures { IfOk result (λ out. (file : List ℕ) (base : Bool) (loading : Option LoadMap)
            (lines : List (List ℕ)) → IsBinary file base binary.entry → counts.with_ranges ≡ true
            → Tells loading lines counts
            → out.items ≡ text (program_of file base) (sampled_by loading file lines)) };

    /// It asks for both files and for no other, and fails no check.
    ghost asks: { (options : model.Options) (binary perf : List ℕ)
        → files_of (command options binary perf)
        ≡ alone binary first_bad_of_binary ∷ alone perf (first_bad_of_text 2) ∷ [] };

    ghost passes: { (options : model.Options) (binary perf : List ℕ) (contents : List (List ℕ))
        → failed_line (command options binary perf) contents ≡ None };

    /// It writes the text of them.
    ghost writes: { (options : model.Options) (binary perf bytes lines out : List ℕ)
        → out ≡ text (program_of bytes options.base)
        (sampled_by (loading_of options.map bytes) bytes (lines_of lines))
        → IsOutput (command options binary perf) (bytes ∷ lines ∷ []) out };
}

/// What such a command writes for the binary and the branch text in these files.
///
/// # Errors
/// Those of reading file 1, the first bad place of the binary, those of reading file 2, and the
/// first bad place of the text.
pub fn from_samples<C: FromSamples, I: Inputs>(
    alloc: Global,
    options: Options<'_>,
    binary: &[u8],
    perf: &[u8],
    inputs: &mut I,
) -> Result<Vec<u8>, Halt>
    ensures carried { Carries (C.command (told_options options.entry) binary.now perf.now)
        (I.store inputs.old) result
        (I.opens inputs.old) (I.opens inputs.new) (I.faults inputs.old) (I.faults inputs.new) }
    ensures store { I.store inputs.new ≡ I.store inputs.old }
{
    let file = read_file(alloc, inputs, BINARY, binary, MAX_BINARY_BYTES)?;
    let binary = in_file(BINARY, read(alloc, &file, options.base))?;
    let counts = sampled(alloc, inputs, perf, options.map, &binary.loads)?;
    let text = C::make(alloc, binary, counts)?;
    Ok(text)
}
