// The lines of a profile, from rows.
ghost use Rattle.std.specs.Prelude.{◌≡◌, ◌<◌, ◌==◌, All, IfOk, filter, length, map};
ghost use Rattle.profile_tree.specs.Rows.{IsKnown, line_of, target_of};

use crate::line::{Line, Target};
use item_lists::Items;
use key_types::NameId;
use profile_lists::{Kind, Ranks, Row, Targets};
use refusal::NoMemory;
use std::alloc::Global;

/// What the lines of rows are made of.
#[derive(Clone, Copy)]
pub struct Parts<'p> {
    /// Functions by total.
    pub by_total: &'p Ranks,
    /// Functions by name.
    pub by_name: &'p Ranks,
    /// How often each function was entered.
    pub heads: &'p [u64],
    /// The count of each key.
    pub counts: &'p [u64],
    pub targets: &'p Targets,
}

/// The line of each row.
pub fn lines_of(alloc: Global, parts: &Parts, rows: &[Row]) -> Result<Vec<Line>, NoMemory>
    requires rows { All (IsKnown parts.now) rows.now }
    requires targets { All (λ target. target.rank < length parts.now.by_name.now.ids)
        parts.now.targets.now }
    ensures { IfOk result (λ lines. lines.items ≡ map (line_of parts.now) rows.now) }
{
    let mut lines = Vec::with_capacity(alloc, rows.len())?;
    for row in rows {
        lines.push(line_of(alloc, parts, row)?)?;
    }
    Ok(lines)
}

/// The line of a row.
fn line_of(alloc: Global, parts: &Parts, row: &Row) -> Result<Line, NoMemory>
    requires row { IsKnown parts.now row.now }
    requires targets { All (λ target. target.rank < length parts.now.by_name.now.ids)
        parts.now.targets.now }
    ensures { IfOk result (λ line. line ≡ line_of parts.now row.now) }
{
    let step = &row.step;
    let rank = step.rank as usize;
    Ok(match step.kind {
        Kind::Function => {
            let name = parts.by_total.ids.as_slice()[rank];
            Line::Function {
                name: NameId(name),
                total: row.total,
                head: parts.heads[name as usize],
            }
        }
        Kind::Body => Line::Body {
            depth: row.depth,
            offset: step.offset,
            disc: step.disc,
            count: parts.counts[row.key as usize],
            targets: Items::new(targets_of(alloc, parts, row.key)?),
        },
        Kind::Call => Line::Call {
            depth: row.depth,
            offset: step.offset,
            disc: step.disc,
            name: NameId(parts.by_name.ids.as_slice()[rank]),
            total: row.total,
        },
    })
}

/// The targets of a key.
fn targets_of(alloc: Global, parts: &Parts, key: u32) -> Result<Vec<Target>, NoMemory>
    requires { All (λ target. target.rank < length parts.now.by_name.now.ids)
        parts.now.targets.now }
    ensures { IfOk result (λ targets. targets.items ≡ map (target_of parts.now.by_name.now.ids)
        (filter (λ target. target.key == key) parts.now.targets.now)) }
{
    let ids = parts.by_name.ids.as_slice();
    let mut targets = Vec::new(alloc);
    for target in parts.targets.of_key(key) {
        targets.push(Target {
            name: NameId(ids[target.rank as usize]),
            times: target.times.0,
        })?;
    }
    Ok(targets)
}
