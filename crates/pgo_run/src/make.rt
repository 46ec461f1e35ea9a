// `make`: a file of a generated case, or the summary of what is built of its three files.
ghost use Rattle.std.specs.Prelude.{◌≡◌, ◌≤◌, ℕ, List, Option, None, false, true, length, map, IfOk};
ghost use Rattle.refusal.specs.Place.{JudgesUnlessNoMemory, size_item};
ghost use Rattle.text_model.specs.Lines.{lines_of};
ghost use Rattle.io_edge.specs.Inputs.{Store};
ghost use Rattle.sample_model.specs.Judging.{first_bad_of_text};
ghost use Rattle.branch_counts.specs.Tally.{Tells};
ghost use Rattle.binary_model.specs.Binary.{first_bad_of_binary};
ghost use Rattle.binary_places.specs.Binary.{IsBinary};
ghost use Rattle.block_model.specs.Text.{functions_of};
ghost use Rattle.cfg_text.specs.Fun.{function_of};
ghost use Rattle.command_model.specs.Command.{make as make_command, make_sum, perf_file};
ghost use Rattle.command_model.specs.Files.{first_bad_of_blocks};
ghost use Rattle.command_model.specs.Make.{case_file as file_told};
ghost use Rattle.command_words.specs.Words.{told_part};
ghost use Rattle.output_model.specs.Summary.{IsSummaryOf};
ghost use Rattle.program_edge.specs.Output.{Carries};

use binary_places::{Binary, read};
use branch_stacks::{Counts, read_text};
use build_maker::summarize;
use case_maker::{CasePart, CaseStop, make};
use cfg_text::Fun;
use program_edge::{BINARY, Halt, MAX_BINARY_BYTES, MAX_BLOCK_BYTES, PERF, in_file, too_large};
use refusal::{NoMemory, Stop, refuse_if};
use std::alloc::Global;

/// The number of the block text.
const BLOCKS: u8 = 3;

/// A file of the generated case of so many functions. No file is opened.
///
/// # Errors
/// `NoMemory`.
pub(crate) fn file_output(alloc: Global, part: CasePart, functions: u64) -> Result<Vec<u8>, Halt>
    ensures { (store : Option Store) (opens faults : ℕ) →
        Carries (make_command (told_part part) functions) store result opens opens faults faults }
{
    let file = case_file(alloc, part, functions)?;
    Ok(file)
}

/// The summary of what is built of the case of so many functions. No file is opened: the case's are
/// files 1 to 3, each made and judged as `build` judges it before the next is made.
///
/// # Errors
/// The first bad place of the binary, of the branch text and of the block text, and `NoMemory`.
pub(crate) fn summary_output(alloc: Global, functions: u64) -> Result<Vec<u8>, Halt>
    ensures { (store : Option Store) (opens faults : ℕ) →
        Carries (make_sum functions) store result opens opens faults faults }
{
    let file = case_file(alloc, CasePart::Bin, functions)?;
    let binary = in_file(BINARY, binary_in(alloc, &file))?;
    let counts = in_file(PERF, samples_of(alloc, functions))?;
    let block_text = case_file(alloc, CasePart::Cfg, functions)?;
    let text = in_file(BLOCKS, summary_of(alloc, binary, counts, &block_text))?;
    Ok(text)
}

/// The summary of a binary, of its samples and of a block text, which is file 3.
fn summary_of(
    alloc: Global,
    binary: Binary<'_>,
    counts: Counts,
    block_text: &[u8],
) -> Result<Vec<u8>, Stop>
    requires { (file : List ℕ) × IsBinary file false binary }
    ensures { JudgesUnlessNoMemory (first_bad_of_blocks BLOCKS block_text.now) result
        (λ out. (file perf : List ℕ) → IsBinary file false binary.entry
        → counts.with_ranges ≡ true → Tells None (lines_of perf) counts
        → IsSummaryOf file perf block_text.now out.items) }
{
    let funs = functions_in(alloc, block_text)?;
    let text = summarize(alloc, binary, counts, &funs)?;
    Ok(text)
}

/// A file of the generated case of so many functions.
fn case_file(alloc: Global, part: CasePart, functions: u64) -> Result<Vec<u8>, NoMemory>
    ensures { IfOk result (λ file. file.items ≡ file_told (told_part part) functions) }
{
    let mut file = Vec::new(alloc);
    match make(functions, part, &mut file) {
        Ok(()) => Ok(file),
        // No words ask for more functions than a case may have.
        Err(CaseStop::TooLargeCase | CaseStop::NoMemory) => Err(NoMemory),
    }
}

/// The binary in these bytes, which are file 1.
fn binary_in(alloc: Global, file: &[u8]) -> Result<Binary<'_>, Stop>
    ensures { JudgesUnlessNoMemory (first_bad_of_binary file.now) result
        (IsBinary file.now false) }
{
    judge_size(BINARY, file, MAX_BINARY_BYTES)?;
    read(alloc, file, false)
}

/// The samples in the branch text of the case, which is file 2.
fn samples_of(alloc: Global, functions: u64) -> Result<Counts, Stop>
    ensures { JudgesUnlessNoMemory (first_bad_of_text PERF (file_told perf_file functions)) result
        (λ counts. (counts.with_ranges ≡ true)
        × Tells None (lines_of (file_told perf_file functions)) counts) }
{
    let text = case_file(alloc, CasePart::Perf, functions)?;
    let mut counts = Counts::new(alloc)?;
    read_text(&text, PERF, &mut counts)?;
    Ok(counts)
}

/// The functions of a block text, which is file 3.
fn functions_in(alloc: Global, text: &[u8]) -> Result<Vec<Fun<'_>>, Stop>
    ensures { JudgesUnlessNoMemory (first_bad_of_blocks BLOCKS text.now) result
        (λ funs. map function_of funs.items ≡ functions_of text.now) }
{
    judge_size(BLOCKS, text, MAX_BLOCK_BYTES)?;
    cfg_text::read(alloc, text, BLOCKS)
}

/// Refuses a file that is larger than this.
fn judge_size(file: u8, bytes: &[u8], limit: u64) -> Result<(), Stop>
    ensures { JudgesUnlessNoMemory (size_item file limit bytes.now) result
        (λ _. length bytes.now ≤ limit) }
{
    refuse_if(bytes.len() as u64 > limit, too_large(file, limit))?;
    Ok(())
}
