// `counts`: the branches of a branch text, each with how often it was taken.
ghost use Rattle.std.specs.Prelude.{◌≡◌, None};
ghost use Rattle.command_model.specs.Command.{counts as counts_command};
ghost use Rattle.program_edge.specs.Output.{Carries, TakesFile};
ghost use Rattle.program_edge.specs.Samples.{CountsFile};

use answer_text::counts_text;
use branch_stacks::{Counts, Reader};
use io_edge::Inputs;
use program_edge::{Halt, count_text, open_file};
use std::alloc::Global;

/// The number of the branch text.
const PERF: u8 = 1;

/// What `counts` writes for the branch text in this file.
///
/// # Errors
/// Those of reading file 1, and the first bad place of the text.
pub(crate) fn output<I: Inputs>(alloc: Global, perf: &[u8], inputs: &mut I) -> Result<Vec<u8>, Halt>
    ensures carried { Carries (counts_command perf.now) (I.store inputs.old) result
        (I.opens inputs.old) (I.opens inputs.new) (I.faults inputs.old) (I.faults inputs.new) }
    ensures store { I.store inputs.new ≡ I.store inputs.old }
{
    let counts = branches(alloc, perf, inputs)?;
    let text = counts_text(alloc, counts)?;
    Ok(text)
}

/// The branches of the branch text in file 1, of this name.
fn branches<I: Inputs>(alloc: Global, perf: &[u8], inputs: &mut I) -> Result<Counts, Halt>
    ensures read { TakesFile (CountsFile PERF None) PERF perf.now (I.store inputs.old) result
        (I.opens inputs.old) (I.opens inputs.new) (I.faults inputs.old) (I.faults inputs.new) }
    ensures store { I.store inputs.new ≡ I.store inputs.old }
{
    open_file(inputs, PERF, perf)?;
    let reader = Reader::new(alloc, PERF)?;
    let mut counts = Counts::of_branches(alloc)?;
    count_text(inputs, PERF, reader, &mut counts)?;
    Ok(counts)
}
