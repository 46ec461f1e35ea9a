// `summary`: how hot the lines of a profile are.
ghost use Rattle.std.specs.Prelude.{◌≡◌};
ghost use Rattle.command_model.specs.Command.{summary as summary_command};
ghost use Rattle.program_edge.specs.Output.{Carries};

use io_edge::Inputs;
use merge_maker::summarize;
use program_edge::{Halt, MAX_PROFILE_BYTES, in_file, read_file};
use std::alloc::Global;

/// The number of the profile text.
const PROFILE: u8 = 1;

/// What `summary` writes for the profile text in this file.
///
/// # Errors
/// Those of reading file 1, and the first bad line of the text.
pub(crate) fn output<I: Inputs>(alloc: Global, file: &[u8], inputs: &mut I) -> Result<Vec<u8>, Halt>
    ensures carried { Carries (summary_command file.now) (I.store inputs.old) result
        (I.opens inputs.old) (I.opens inputs.new) (I.faults inputs.old) (I.faults inputs.new) }
    ensures store { I.store inputs.new ≡ I.store inputs.old }
{
    let text = read_file(alloc, inputs, PROFILE, file, MAX_PROFILE_BYTES)?;
    let lines = in_file(PROFILE, summarize(alloc, &text, PROFILE))?;
    Ok(lines)
}
