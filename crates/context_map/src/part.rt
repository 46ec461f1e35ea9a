ghost use Rattle.std.specs.Prelude.{◌≡◌, ◌≤◌, ◌<◌, ◌^◌, ◌-◌, Some, length, OnOk};
ghost use Rattle.std.specs.Option.{option_map};
ghost use Rattle.key_types.specs.Segments.{Kept};
ghost use Rattle.context_map.specs.Parts.{Extends, KeepUp, line_and_disc, shown};

use crate::key::{factor, key_of};
use crate::named::NamedPath;
use crate::rules::Rules;
use address_spans::Span;
use key_types::{Keys, Seg};
use refusal::NoMemory;
use row_table::RowData;
use std::alloc::Global;

/// Appends the segment of a part whose addresses have these names and this row, if they have a key.
pub(crate) fn push_part(
    alloc: Global,
    segments: &mut Vec<Seg>,
    keys: &mut Keys,
    part: &Span,
    named: &NamedPath,
    row: Option<RowData>,
    rules: Rules,
) -> Result<(), NoMemory>
    requires full { part.now.lo < part.now.hi }
    requires room { rules.most < 2 ^ 32 - 1 }
    ensures told { OnOk result (Extends part.now.lo part.now.hi
        (λ _. shown rules.base (Some named.now) (option_map line_and_disc row))
        keys.old keys.new segments.old.items segments.new.items) }
    ensures used { OnOk result
        (KeepUp keys.old keys.new segments.old.items segments.new.items) }
    ensures kept { Kept keys.old keys.new }
    ensures most { length keys.old ≤ rules.most → length keys.new ≤ rules.most }
{
    let Some(row) = row else {
        return Ok(());
    };
    if row.line == 0 {
        return Ok(());
    }
    let key = key_of(alloc, keys, named, row, rules)?;
    segments.push(Seg {
        lo: part.lo,
        hi: part.hi,
        key,
        factor: factor(rules.base, row),
    })?;
    Ok(())
}
