ghost use Rattle.std.specs.Prelude.{◌≡◌, [], ◌∷◌, ◌++◌, filter, IfOk, OnOk};
ghost use Rattle.line_model.specs.Rows.{is_live_sequence, live_sequences};

use crate::sequence::Sequence;
use elf_sections::Elf;
use line_model::Row;
use refusal::NoMemory;
use std::alloc::Global;
use std::mem;

/// The live sequences among some rows, in their order.
pub(crate) fn live(alloc: Global, rows: &[Row], elf: &Elf<'_>) -> Result<Vec<Sequence>, NoMemory>
    ensures { IfOk result (λ sequences. sequences.items ≡ live_sequences elf.now rows.now) }
{
    let mut sequences = Vec::new(alloc);
    let mut begun = Vec::new(alloc);
    for row in rows {
        if !row.ends {
            begun.push(*row)?;
            continue;
        }
        let rows = mem::replace(&mut begun, Vec::new(alloc));
        push_if_live(&mut sequences, Sequence { rows, end: *row }, elf)?;
    }
    Ok(sequences)
}

/// Appends a sequence that is live.
fn push_if_live(
    sequences: &mut Vec<Sequence>,
    sequence: Sequence,
    elf: &Elf<'_>,
) -> Result<(), NoMemory>
    ensures { OnOk result
        (sequences.new.items ≡ sequences.old.items
        ++ filter (is_live_sequence elf.now) (sequence ∷ [])) }
{
    if sequence.is_live(elf) {
        sequences.push(sequence)?;
    }
    Ok(())
}
