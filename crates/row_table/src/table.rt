ghost use Rattle.std.specs.Prelude.{◌≡◌, ◌≤◌, ℕ, IfOk, length, position};
ghost use Rattle.address_spans.specs.Spans.{owner_at as owner_of};
ghost use Rattle.line_model.specs.Rows.{holds, live_sequences};
ghost use Rattle.row_table.specs.Index.{IsIndex};

use crate::cuts::cuts_of;
use crate::row_data::RowData;
use crate::sequence::Sequence;
use crate::sequences::live;
use address_spans::{Span, disjoint, owner_at};
use elf_sections::Elf;
use line_model::Row;
use refusal::NoMemory;
use std::alloc::Global;
use std::marker::Model;

/// The live sequences of one unit's line table. The first one that holds an address counts.
///
/// Addresses are those of the file's loaded segments.
#[derive(Debug, Drop)]
pub struct RowTable {
    sequences: Vec<Sequence>,
    spans: Vec<Span>,
    cuts: Vec<u64>,
}

impl Model for RowTable {
    ghost use Rattle.std.specs.Prelude.{List};
    ghost use Rattle.std.specs.List.{AllByRecursion};
    ghost use Rattle.line_model.specs.Rows.{Sequence};
    ghost use Rattle.row_table.specs.Index.{HaveAddresses, IsIndex, IsRising};

    ghost Value = { List Sequence };

    ghost view = { λ t. t.sequences.items };

    ghost invariant = { λ t. AllByRecursion IsRising t.sequences.items
        × IsIndex t.sequences.items t.spans.items
        × HaveAddresses t.sequences.items t.cuts.items };
}

impl RowTable {
    ghost use Rattle.row_table.specs.Told.{AreCuts, row_count, told};

    /// The table of a unit's rows. Only live sequences are kept: those that have rows, whose
    /// addresses never fall, and whose range is code of the file.
    ///
    /// # Errors
    /// `NoMemory`.
    pub fn make(alloc: Global, rows: &[Row], elf: &Elf<'_>) -> Result<RowTable, NoMemory>
        ensures live { IfOk result (λ table. table ≡ live_sequences elf.now rows.now) }
        ensures few { IfOk result (λ table. row_count table ≤ length rows.now) }
    {
        let sequences = live(alloc, rows, elf)?;
        let spans = index_of(alloc, &sequences)?;
        let cuts = cuts_of(alloc, &sequences)?;
        Ok(RowTable {
            sequences,
            spans,
            cuts,
        })
    }

    /// The same table once more.
    ///
    /// # Errors
    /// `NoMemory`.
    pub fn try_clone(&self) -> Result<RowTable, NoMemory>
        ensures { IfOk result (λ table. table ≡ self.now) }
    {
        let sequences = self.sequences.clone()?;
        let spans = self.spans.clone()?;
        let cuts = self.cuts.clone()?;
        Ok(RowTable {
            sequences,
            spans,
            cuts,
        })
    }

    /// Line and discriminator of an address: in the first sequence that holds it those of the last
    /// row whose address is not above it.
    pub fn row_at(&self, address: u64) -> Option<RowData>
        ensures { result ≡ told self.now address }
    {
        let place = owner_at(&self.spans, address)?;
        self.sequences[place].row_at(address)
    }

    /// Ascending addresses: from one up to below the next `row_at` has one answer. It has none
    /// below the first and from the last one on. They are at most as many as the rows of the live
    /// sequences, which are at most those that `make` was given.
    pub fn cuts(&self) -> &[u64]
        ensures cuts { AreCuts (told self.now) result.now }
        ensures few { length result.now ≤ row_count self.now }
    {
        &self.cuts
    }
}

/// For each address the place of the first sequence that holds it, as disjoint spans.
fn index_of(alloc: Global, sequences: &[Sequence]) -> Result<Vec<Span>, NoMemory>
    ensures { IfOk result (λ spans. IsIndex sequences.now spans.items) }
{
    disjoint(alloc, &ranges_of(alloc, sequences)?)
}

/// The ranges of the sequences, each with its place among them.
fn ranges_of(alloc: Global, sequences: &[Sequence]) -> Result<Vec<Span>, NoMemory>
    ensures { IfOk result (λ spans. (address : ℕ) →
        owner_of spans.items address ≡ position (holds address) sequences.now) }
{
    let mut ranges = Vec::new(alloc);
    for (owner, sequence) in sequences.iter().enumerate() {
        let Some(first) = sequence.rows.first() else {
            continue;
        };
        ranges.push(Span {
            lo: first.address,
            hi: sequence.end.address,
            owner,
        })?;
    }
    Ok(ranges)
}
