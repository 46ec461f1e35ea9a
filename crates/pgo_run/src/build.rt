// `build`: the profile of a binary, a repair of each function of a block text, and the report.
ghost use Rattle.std.specs.Prelude.{◌≡◌};
ghost use Rattle.command_model.specs.Command.{build as build_command};
ghost use Rattle.command_words.specs.Words.{told_options};
ghost use Rattle.program_edge.specs.Output.{Carries};

use binary_places::read;
use build_maker::build;
use command_words::Options;
use io_edge::Inputs;
use program_edge::{BINARY, Halt, MAX_BINARY_BYTES, MAX_BLOCK_BYTES, in_file, read_file, sampled};
use std::alloc::Global;

/// The number of the block text.
const BLOCKS: u8 = 3;

/// What `build` writes for the binary, the branch text and the block text in these files.
///
/// # Errors
/// Those of reading file 1, the first bad place of the binary, those of reading file 2, the first
/// bad place of the branch text, those of reading file 3, and the first bad place of the block
/// text.
pub(crate) fn output<I: Inputs>(
    alloc: Global,
    options: Options<'_>,
    binary: &[u8],
    perf: &[u8],
    blocks: &[u8],
    inputs: &mut I,
) -> Result<Vec<u8>, Halt>
    ensures carried { Carries
        (build_command (told_options options.entry) binary.now perf.now blocks.now)
        (I.store inputs.old) result
        (I.opens inputs.old) (I.opens inputs.new) (I.faults inputs.old) (I.faults inputs.new) }
    ensures store { I.store inputs.new ≡ I.store inputs.old }
{
    let file = read_file(alloc, inputs, BINARY, binary, MAX_BINARY_BYTES)?;
    let binary = in_file(BINARY, read(alloc, &file, options.base))?;
    let counts = sampled(alloc, inputs, perf, options.map, &binary.loads)?;
    let block_text = read_file(alloc, inputs, BLOCKS, blocks, MAX_BLOCK_BYTES)?;
    let funs = in_file(BLOCKS, cfg_text::read(alloc, &block_text, BLOCKS))?;
    let text = build(alloc, binary, counts, &funs, options.repairs)?;
    Ok(text)
}
