// The entries of a unit.
ghost use Rattle.std.specs.Prelude.{◌≡◌, ◌<◌, ◌≤◌, ◌+◌, ◌++◌, ◌∷◌, [], length, if◌then◌else◌, IfOk, OnOk};
ghost use Rattle.unit_model.specs.Entries.{entry_of, next_entry, entries as entries_told};
ghost use Rattle.dwarf_info.specs.Entries.{all_of, IsWhole, ReadsSoFar, ReadsEntries};
ghost use Rattle.dwarf_info.specs.Rows.{row_made};
ghost use Rattle.dwarf_info.specs.Tails.{list_of};

use crate::numbers::{in_16, in_32};
use crate::rows::{Entries, EntryRow};
use crate::tables::Table;
use crate::values::read_values;
use byte_view::Cur;
use dwarf_abbrev::Abbrev;
use dwarf_forms::UnitShape;
use placed_view::uleb;
use refusal::{Kind, NoMemory, Place, Stop, refuse_if};

/// The deepest that an entry can stand.
const MAX_DEPTH: u32 = 1024;

/// The most entries of a file.
const MAX_ENTRIES: usize = 1 << 24;

/// The unit whose entries are read: its number, and the size of its offsets.
#[derive(Clone, Copy, Debug)]
pub(crate) struct OpenUnit {
    pub unit: u32,
    pub shape: UnitShape,
}

/// The row of an entry with `count` attributes, from `first` on.
///
/// # Errors
/// `NoMemory` where its offset in the file or `first` has more than 32 bits, or `count` more than
/// 16. No binary of at most 2^30 bytes has such an entry: there are at most 2^24, each with at most
/// one attribute of each name that is wanted.
fn row_of(
    at: usize,
    tag: u64,
    depth: u32,
    unit: u32,
    first: usize,
    count: usize,
) -> Result<EntryRow, NoMemory>
    requires { depth ≤ 1024 }
    ensures { IfOk result (λ row. row ≡ row_made at tag depth unit first count) }
{
    Ok(EntryRow {
        tag,
        at: in_32(at as u64)?,
        unit,
        first: in_32(first as u64)?,
        depth: depth as u16,
        count: in_16(count as u64)?,
    })
}

/// Adds a row.
fn push(rows: &mut Vec<EntryRow>, row: EntryRow) -> Result<(), NoMemory>
    ensures { OnOk result (rows.new.items ≡ rows.old.items ++ row ∷ []) }
{
    rows.push(row)?;
    Ok(())
}

/// The depth behind an entry.
fn depth_behind(depth: u32, children: bool) -> u32
    requires { depth ≤ 1024 }
    ensures { result ≡ (if children then depth + 1 else depth) }
{
    if children { depth + 1 } else { depth }
}

/// Reads the values of an entry whose abbreviation was found for the code at `at`, and answers the
/// depth of the next entry.
#[tactic(auto, unfolding(unit_model::specs::Entries::entry_of), using(crate::proofs::EntryLemmas::entry_lemmas))]
fn read_entry<'a>(
    cur: &mut Cur<'a>,
    at: usize,
    abbrev: &Abbrev<'_>,
    of: OpenUnit,
    depth: u32,
    entries: &mut Entries<'a>,
) -> Result<u32, Stop>
    requires { IsWhole entries.old }
    ensures read { ReadsSoFar result entries.new cur.new
        (entry_of (record { unit = of.unit; wide = of.shape.wide }) at abbrev.now
        (record { depth = depth; entries = all_of entries.old }) cur.old) }
    ensures not_longer { OnOk result (length cur.new.left ≤ length cur.old.left) }
{
    refuse_if(depth > MAX_DEPTH, Place::in_binary(at, Kind::TooDeep))?;
    let is_full = entries.rows.len() >= MAX_ENTRIES;
    refuse_if(is_full, Place::in_binary(at, Kind::TooManyEntries))?;
    let first = entries.found.len();
    let tag = abbrev.tag;
    read_values(cur, tag, abbrev.attrs, of.shape, &mut entries.found)?;
    let count = entries.found.len().saturating_sub(first);
    let row = row_of(at, tag, depth, of.unit, first, count)?;
    push(&mut entries.rows, row)?;
    Ok(depth_behind(depth, abbrev.children))
}

/// Reads the next entry, or the code 0 that closes a level, and answers the depth of the one behind
/// it.
#[tactic(auto, unfolding(unit_model::specs::Entries::next_entry, unit_model::specs::Entries::entry_of_code))]
fn read_next<'a>(
    cur: &mut Cur<'a>,
    table: &Table,
    of: OpenUnit,
    depth: u32,
    entries: &mut Entries<'a>,
) -> Result<u32, Stop>
    requires { IsWhole entries.old }
    ensures read { ReadsSoFar result entries.new cur.new
        (next_entry (record { unit = of.unit; wide = of.shape.wide }) (list_of table.now)
        (record { depth = depth; entries = all_of entries.old }) cur.old) }
    ensures shorter { OnOk result (length cur.new.left < length cur.old.left) }
{
    let at = cur.at();
    let code = uleb(cur)?;
    if code == 0 {
        return Ok(depth.saturating_sub(1));
    }
    let Some(abbrev) = table.find(code) else {
        return Err(Stop::Refused(Place::in_binary(at, Kind::UnknownAbbrev)));
    };
    read_entry(cur, at, &abbrev, of, depth, entries)
}

/// Reads the entries of a unit up to its end, behind those of the units before it.
pub(crate) fn read_entries<'a>(
    cur: &mut Cur<'a>,
    table: &Table,
    of: OpenUnit,
    entries: &mut Entries<'a>,
) -> Result<(), Stop>
    requires { IsWhole entries.old }
    ensures { ReadsEntries result entries.new
        (entries_told (record { unit = of.unit; wide = of.shape.wide }) (list_of table.now)
        (all_of entries.old) cur.old) }
{
    let mut depth = 0;
    while cur.left() > 0 {
        depth = read_next(cur, table, of, depth, entries)?;
    }
    Ok(())
}
