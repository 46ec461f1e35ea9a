// `merge`: the sum of profiles, each with a weight.
ghost use Rattle.std.specs.Prelude.{◌≡◌, ◌≤◌, ℕ, List, [], length, map};
ghost use Rattle.io_edge.specs.Faults.{raised};
ghost use Rattle.command_model.specs.Command.{max_parts, merge as merge_command};
ghost use Rattle.command_words.specs.Words.{told_weighed};
ghost use Rattle.merge_maker.specs.Merge.{HasRoom, IsMergeOf};
ghost use Rattle.pgo_run.specs.Merge.{AddsFile};
ghost use Rattle.program_edge.specs.Output.{Carries, HasFileCause};

use command_words::{MAX_PARTS, Part};
use io_edge::Inputs;
use merge_maker::Merge;
use program_edge::{Halt, MAX_PROFILE_BYTES, in_file, read_file};
use std::alloc::Global;
use std::array;

/// What `merge` writes for the profile texts in these files.
///
/// # Errors
/// Of each file in order: those of reading it, its first bad line, and the first line with a number
/// that would not fit 64 bits together with those before.
pub(crate) fn output<I: Inputs>(
    alloc: Global,
    parts: &[Part<'_>],
    inputs: &mut I,
) -> Result<Vec<u8>, Halt>
    requires { length parts.now ≤ max_parts }
    ensures carried { Carries
        (merge_command (map told_weighed parts.now)) (I.store inputs.old) result
        (I.opens inputs.old) (I.opens inputs.new) (I.faults inputs.old) (I.faults inputs.new) }
    ensures store { I.store inputs.new ≡ I.store inputs.old }
{
    // The buffers come first: names are borrowed from them.
    let mut buffers: [Vec<u8>; MAX_PARTS] = array::from_fn(|_| Vec::new(alloc));
    let mut merge = Merge::new(alloc)?;
    merged_text(alloc, parts, inputs, &mut buffers, &mut merge)
}

/// The same, with the buffers that the files are read into and a merge that has read none.
fn merged_text<'a, I: Inputs>(
    alloc: Global,
    parts: &[Part<'_>],
    inputs: &mut I,
    buffers: &'a mut [Vec<u8>; MAX_PARTS],
    merge: &mut Merge<'a>,
) -> Result<Vec<u8>, Halt>
    requires few { length parts.now ≤ max_parts }
    requires none { IsMergeOf merge.old [] }
    ensures carried { Carries
        (merge_command (map told_weighed parts.now)) (I.store inputs.old) result
        (I.opens inputs.old) (I.opens inputs.new) (I.faults inputs.old) (I.faults inputs.new) }
    ensures store { I.store inputs.new ≡ I.store inputs.old }
{
    let mut free = buffers.iter_mut();
    let mut k = 0;
    for part in parts {
        // There is one for each file.
        let buffer = free.next().unwrap();
        k += 1;
        add_file(alloc, inputs, k, *part, buffer, merge)?;
    }
    let text = merge.text(alloc)?;
    Ok(text)
}

/// Reads the file of the k-th file word into a buffer, and sums it with those before it.
fn add_file<'a, I: Inputs>(
    alloc: Global,
    inputs: &mut I,
    k: u8,
    part: Part<'_>,
    buffer: &'a mut Vec<u8>,
    merge: &mut Merge<'a>,
) -> Result<(), Halt>
    requires { HasRoom merge.old }
    ensures file { (texts : List (ℕ × List ℕ)) → IsMergeOf merge.old texts →
        AddsFile (I.store inputs.old) k (told_weighed part.entry) texts result merge.new }
    ensures store { I.store inputs.new ≡ I.store inputs.old }
    ensures opens { I.opens inputs.new ≡ raised (I.opens inputs.old) }
    ensures cause { HasFileCause k (I.faults inputs.old) (I.faults inputs.new) result }
{
    *buffer = read_file(alloc, inputs, k, part.file, MAX_PROFILE_BYTES)?;
    in_file(k, merge.add(alloc, buffer, k, part.weight))
}
