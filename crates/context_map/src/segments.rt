ghost use Rattle.std.specs.Prelude.{◌≡◌, ◌≤◌, ◌<◌, ◌^◌, ◌-◌, Some, length, OnOk};
ghost use Rattle.std.specs.Option.{option_map};
ghost use Rattle.row_table.specs.Told.{told};
ghost use Rattle.key_types.specs.Segments.{Kept};
ghost use Rattle.context_map.specs.Parts.{Extends, KeepUp, line_and_disc, shown};

use crate::cuts::cuts_between;
use crate::named::NamedPath;
use crate::part::push_part;
use crate::rules::Rules;
use address_spans::Span;
use key_types::{Keys, Seg};
use refusal::NoMemory;
use row_table::RowTable;
use std::alloc::Global;

/// Appends the segments of a span whose addresses have these names, cut where line or discriminator
/// change.
///
/// # Errors
/// `NoMemory`, also where there would be more keys than there may be.
pub fn push_segments(
    alloc: Global,
    segments: &mut Vec<Seg>,
    keys: &mut Keys,
    span: &Span,
    named: &NamedPath,
    table: &RowTable,
    rules: Rules,
) -> Result<(), NoMemory>
    requires full { span.now.lo < span.now.hi }
    requires room { rules.most < 2 ^ 32 - 1 }
    ensures told { OnOk result (Extends span.now.lo span.now.hi
        (λ address. shown rules.base (Some named.now)
        (option_map line_and_disc (told table.now address)))
        keys.old keys.new segments.old.items segments.new.items) }
    ensures used { OnOk result
        (KeepUp keys.old keys.new segments.old.items segments.new.items) }
    ensures kept { Kept keys.old keys.new }
    ensures most { length keys.old ≤ rules.most → length keys.new ≤ rules.most }
{
    let mut part = *span;
    let mut row = table.row_at(span.lo);
    for cut in cuts_between(table, span.lo, span.hi) {
        let next = table.row_at(*cut);
        if next == row {
            continue;
        }
        part.hi = *cut;
        push_part(alloc, segments, keys, &part, named, row, rules)?;
        part.lo = *cut;
        row = next;
    }
    part.hi = span.hi;
    push_part(alloc, segments, keys, &part, named, row, rules)
}
