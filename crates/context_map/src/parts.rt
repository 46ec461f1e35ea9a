ghost use Rattle.std.specs.Prelude.{◌≤◌, ◌<◌, ◌-◌, ◌^◌, length, IfOk};
ghost use Rattle.key_types.specs.Segments.{HaveSegments, Kept};
ghost use Rattle.context_map.specs.Maps.{ArePartsOf, rows_of};

use crate::asked::Asked;
use crate::context::context_of;
use crate::parent::parents;
use crate::rules::Rules;
use crate::span::{MapParts, push_span};
use chain_model::Member;
use key_types::Keys;
use refusal::NoMemory;
use row_table::RowTable;
use span_cover::cover_asked;
use std::alloc::Global;

/// The segments of all addresses in functions that are asked for, and the spans of chains with a
/// nameless member, made span by span of the innermost members.
pub(crate) fn parts_of(
    alloc: Global,
    members: &[Member],
    asked: &Asked,
    rows: &[Option<RowTable>],
    keys: &mut Keys,
    rules: Rules,
) -> Result<MapParts, NoMemory>
    requires { rules.most < 2 ^ 32 - 1 }
    ensures parts { IfOk result (λ parts. ArePartsOf asked.now (rows_of rows.now) rules.base
        members.now keys.new parts.segments.items parts.nameless.items) }
    ensures used { IfOk result (λ parts.
        HaveSegments (length keys.old) keys.new parts.segments.items) }
    ensures kept { Kept keys.old keys.new }
    ensures most { length keys.old ≤ rules.most → length keys.new ≤ rules.most }
{
    let cover = cover_asked(alloc, members, asked.marks())?;
    let parents = parents(alloc, members)?;
    let mut parts = MapParts {
        segments: Vec::new(alloc),
        nameless: Vec::new(alloc),
    };
    for span in &cover {
        let context = context_of(alloc, members, &parents, span.owner, rules.base)?;
        push_span(alloc, &mut parts, keys, span, &context, rows, rules)?;
    }
    Ok(parts)
}
