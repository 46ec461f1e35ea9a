ghost use Rattle.std.specs.Prelude.{◌≡◌, ◌≤◌, ◌<◌, ◌-◌, ◌^◌, ◌++◌, length, OnOk};
ghost use Rattle.std.specs.Option.{option_map};
ghost use Rattle.key_types.specs.Segments.{Kept};
ghost use Rattle.context_map.specs.Parts.{Extends, KeepUp, shown};
ghost use Rattle.context_map.specs.Maps.{rows_of, table_of as table_at, unnamed};

use crate::context::Context;
use crate::rules::Rules;
use crate::segments::push_segments;
use address_spans::Span;
use key_types::{Keys, Seg};
use refusal::NoMemory;
use row_table::RowTable;
use std::alloc::Global;

/// What of the addresses is made so far: segments, and the spans of chains with a nameless member.
#[derive(Drop)]
pub(crate) struct MapParts {
    pub segments: Vec<Seg>,
    pub nameless: Vec<Span>,
}

/// Appends what a span comes to whose addresses have this context.
pub(crate) fn push_span(
    alloc: Global,
    parts: &mut MapParts,
    keys: &mut Keys,
    span: &Span,
    context: &Context,
    rows: &[Option<RowTable>],
    rules: Rules,
) -> Result<(), NoMemory>
    requires full { span.now.lo < span.now.hi }
    requires room { rules.most < 2 ^ 32 - 1 }
    ensures told { OnOk result (Extends span.now.lo span.now.hi
        (λ address. shown rules.base context.now.named (rows_of rows.now context.now.unit address))
        keys.old keys.new parts.old.segments.items parts.new.segments.items) }
    ensures nameless { OnOk result (parts.new.nameless.items
        ≡ parts.old.nameless.items ++ unnamed context.now.named span.now) }
    ensures used { OnOk result
        (KeepUp keys.old keys.new parts.old.segments.items parts.new.segments.items) }
    ensures kept { Kept keys.old keys.new }
    ensures most { length keys.old ≤ rules.most → length keys.new ≤ rules.most }
{
    let Some(named) = &context.named else {
        parts.nameless.push(*span)?;
        return Ok(());
    };
    let Some(table) = table_of(rows, context.unit) else {
        return Ok(());
    };
    push_segments(alloc, &mut parts.segments, keys, span, named, table, rules)
}

/// The row table of a unit, if it has one.
fn table_of(rows: &[Option<RowTable>], unit: u32) -> Option<&RowTable>
    ensures { option_map (λ table. table.now) result ≡ table_at rows.now unit }
{
    match rows.get(unit as usize) {
        Some(Some(table)) => Some(table),
        _ => None,
    }
}
