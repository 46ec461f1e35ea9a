// `lift`: the profile in what was built, with the repaired counts of blocks on its lines.
ghost use Rattle.std.specs.Prelude.{◌≡◌};
ghost use Rattle.command_model.specs.Command.{lift as lift_command};
ghost use Rattle.command_words.specs.Words.{told_options};
ghost use Rattle.program_edge.specs.Output.{Carries};

use binary_places::read;
use command_words::Options;
use io_edge::Inputs;
use lift_maker::{Lifted, lift};
use program_edge::{
    BINARY, Halt, MAX_BINARY_BYTES, MAX_BLOCK_BYTES, MAX_REPAIR_BYTES, in_file, read_file,
};
use std::alloc::Global;

// The number of each file behind the binary.
const BLOCKS: u8 = 2;

const BUILT: u8 = 3;

/// What `lift` writes for the binary, the block text and what was built in these files.
///
/// # Errors
/// Those of reading file 1, the first bad place of the binary, those of reading file 2, the first
/// bad place of the block text, those of reading file 3, its first bad place as a profile text and
/// then as a repair text, and the first line that fails its test.
pub(crate) fn output<I: Inputs>(
    alloc: Global,
    options: Options<'_>,
    binary: &[u8],
    blocks: &[u8],
    built: &[u8],
    inputs: &mut I,
) -> Result<Vec<u8>, Halt>
    ensures carried { Carries
        (lift_command (told_options options.entry) binary.now blocks.now built.now)
        (I.store inputs.old) result
        (I.opens inputs.old) (I.opens inputs.new) (I.faults inputs.old) (I.faults inputs.new) }
    ensures store { I.store inputs.new ≡ I.store inputs.old }
{
    let file = read_file(alloc, inputs, BINARY, binary, MAX_BINARY_BYTES)?;
    let binary = in_file(BINARY, read(alloc, &file, options.base))?;
    let block_text = read_file(alloc, inputs, BLOCKS, blocks, MAX_BLOCK_BYTES)?;
    let funs = in_file(BLOCKS, cfg_text::read(alloc, &block_text, BLOCKS))?;
    let text = read_file(alloc, inputs, BUILT, built, MAX_REPAIR_BYTES)?;
    let lifted = in_file(BUILT, lift(alloc, binary, &funs, &text, BUILT))?;
    match lifted {
        Lifted::Text(out) => Ok(out),
        Lifted::Failed(line) => Err(Halt::CheckFailed(line)),
    }
}
