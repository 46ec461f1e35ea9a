// Lines of count 0 for a profile text.
ghost use Rattle.std.specs.Prelude.{◌≡◌};
ghost use Rattle.command_model.specs.Command.{cold as cold_command};
ghost use Rattle.command_words.specs.Words.{told_options};
ghost use Rattle.program_edge.specs.Output.{Carries};

use binary_places::read;
use cold_maker::cold;
use command_words::Options;
use io_edge::Inputs;
use program_edge::{BINARY, Halt, MAX_BINARY_BYTES, MAX_PROFILE_BYTES, in_file, read_file};
use std::alloc::Global;

/// The number of the profile text.
const PROFILE: u8 = 2;

/// What is written for the binary and the profile text in these files.
///
/// # Errors
/// Those of reading file 1, the first bad place of the binary, those of reading file 2, and the
/// first bad place of the text in it.
pub(crate) fn of_text<I: Inputs>(
    alloc: Global,
    options: Options<'_>,
    binary: &[u8],
    profile: &[u8],
    inputs: &mut I,
) -> Result<Vec<u8>, Halt>
    ensures carried { Carries (cold_command (told_options options.entry) binary.now profile.now)
        (I.store inputs.old) result
        (I.opens inputs.old) (I.opens inputs.new) (I.faults inputs.old) (I.faults inputs.new) }
    ensures store { I.store inputs.new ≡ I.store inputs.old }
{
    let file = read_file(alloc, inputs, BINARY, binary, MAX_BINARY_BYTES)?;
    let binary = in_file(BINARY, read(alloc, &file, options.base))?;
    let profile = read_file(alloc, inputs, PROFILE, profile, MAX_PROFILE_BYTES)?;
    let text = in_file(PROFILE, cold(alloc, binary, &profile, PROFILE))?;
    Ok(text)
}
