// `check`: whether the repairs of a repair text keep what they promise.
ghost use Rattle.std.specs.Prelude.{◌≡◌};
ghost use Rattle.command_model.specs.Command.{check as check_command};
ghost use Rattle.program_edge.specs.Output.{Carries};

use answer_text::checked_text;
use io_edge::Inputs;
use program_edge::{Halt, MAX_BLOCK_BYTES, MAX_REPAIR_BYTES, in_file, read_file};
use repair_check::failed_line;
use std::alloc::Global;

// The number of each file.
const BLOCKS: u8 = 1;

const REPAIRS: u8 = 2;

/// What `check` writes for the block text and the repair text in these files.
///
/// # Errors
/// Those of reading file 1, the first bad place of the block text, those of reading file 2, the
/// first bad place of the repair text, and the first line that fails its test.
pub(crate) fn output<I: Inputs>(
    alloc: Global,
    blocks: &[u8],
    repairs: &[u8],
    inputs: &mut I,
) -> Result<Vec<u8>, Halt>
    ensures carried { Carries (check_command blocks.now repairs.now) (I.store inputs.old) result
        (I.opens inputs.old) (I.opens inputs.new) (I.faults inputs.old) (I.faults inputs.new) }
    ensures store { I.store inputs.new ≡ I.store inputs.old }
{
    let block_text = read_file(alloc, inputs, BLOCKS, blocks, MAX_BLOCK_BYTES)?;
    let funs = in_file(BLOCKS, cfg_text::read(alloc, &block_text, BLOCKS))?;
    let repair_text = read_file(alloc, inputs, REPAIRS, repairs, MAX_REPAIR_BYTES)?;
    let repairs = in_file(
        REPAIRS,
        repair_text::read(alloc, &repair_text, REPAIRS, &funs),
    )?;
    let failed = failed_line(alloc, &funs, &repairs)?;
    if let Some(line) = failed {
        return Err(Halt::CheckFailed(line));
    }
    let text = checked_text(alloc, funs.len())?;
    Ok(text)
}
