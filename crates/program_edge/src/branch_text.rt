// A branch text, read piece by piece.
ghost use Rattle.std.specs.Prelude.{◌≡◌, [], IfSome, Option, None};
ghost use Rattle.branch_stacks.specs.Reader.{new_reading_by};
ghost use Rattle.branch_counts.specs.Tally.{Tells};
ghost use Rattle.sample_model.specs.Moves.{LoadMap};
ghost use Rattle.program_edge.specs.BranchText.{FeedsText, JudgesText};
ghost use Rattle.program_edge.specs.Output.{HasFileCause};

use crate::halt::{Halt, in_file};
use branch_stacks::{Counts, Reader};
use io_edge::Inputs;

/// The most bytes that one read gives.
const PIECE: usize = 1 << 16;

/// Counts the branch text that is left of the open file, which is that of the k-th file word, by a
/// new reader of it. Its lines are judged as they are read, and the first bad one ends the reading.
///
/// # Errors
/// `Refused` at the first bad place of the text, and `ReadFault` where a read failed before any bad
/// line.
pub fn count_text<I: Inputs>(
    inputs: &mut I,
    k: u8,
    mut reader: Reader,
    counts: &mut Counts,
) -> Result<(), Halt>
    requires reader { (loading : Option LoadMap) × (reader ≡ new_reading_by loading k) }
    requires counts { Tells None [] counts.old }
    ensures text { IfSome (I.left inputs.old) (λ text.
        JudgesText reader.loading k text result counts.new) }
    ensures ranged { counts.new.with_ranges ≡ counts.old.with_ranges }
    ensures store { I.store inputs.new ≡ I.store inputs.old }
    ensures opens { I.opens inputs.new ≡ I.opens inputs.old }
    ensures cause { HasFileCause k (I.faults inputs.old) (I.faults inputs.new) result }
{
    feed_all(inputs, k, &mut reader, counts)?;
    in_file(k, reader.finish(counts))?;
    Ok(())
}

/// Feeds all that is left of the open file to a reader.
fn feed_all<I: Inputs>(
    inputs: &mut I,
    k: u8,
    reader: &mut Reader,
    counts: &mut Counts,
) -> Result<(), Halt>
    requires reader { (loading : Option LoadMap) × (reader.old ≡ new_reading_by loading k) }
    requires counts { Tells None [] counts.old }
    ensures text { IfSome (I.left inputs.old) (λ text.
        FeedsText reader.old.loading k text result reader.new counts.new) }
    ensures ranged { counts.new.with_ranges ≡ counts.old.with_ranges }
    ensures store { I.store inputs.new ≡ I.store inputs.old }
    ensures opens { I.opens inputs.new ≡ I.opens inputs.old }
    ensures cause { HasFileCause k (I.faults inputs.old) (I.faults inputs.new) result }
{
    let mut piece = [0; PIECE];
    loop {
        let Ok(n) = inputs.read(&mut piece) else {
            return Err(Halt::ReadFault(k));
        };
        if n == 0 {
            return Ok(());
        }
        in_file(k, reader.feed(&piece[..n], counts))?;
    }
}
