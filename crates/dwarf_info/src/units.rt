// The units of a section.
ghost use Rattle.std.specs.Prelude.{◌≡◌, ◌<◌, ◌≤◌, ◌^◌, ◌++◌, ◌∷◌, [], length, Some, IfSome, OnOk};
ghost use Rattle.std.specs.Option.{option_map};
ghost use Rattle.refusal.specs.Place.{JudgesUnlessNoMemory};
ghost use Rattle.placed_view.specs.Reader.{IsRead, refused_at, start_of};
ghost use Rattle.unit_model.specs.Units.{next_unit, unit_behind, unit_body, units as units_told_in};
ghost use Rattle.dwarf_info.specs.Told.{units_told};
ghost use Rattle.unit_model.specs.Header.{Header as HeaderTold};
ghost use Rattle.dwarf_info.specs.Entries.{IsWhole};
ghost use Rattle.dwarf_info.specs.Tables.{StandsIn};
ghost use Rattle.dwarf_info.specs.Tails.{list_of};
ghost use Rattle.dwarf_info.specs.Units.{ReadsNext, ReadsUnit, SkipsUnit, extent_of, unit_by_table, units_of};

use crate::entries::{OpenUnit, read_entries};
use crate::header::{Header, read_header, read_length};
use crate::rows::{Unit, Units, UnitsRead};
use crate::tables::{Table, Tables};
use byte_view::{Cur, Part};
use dwarf_forms::UnitShape;
use placed_view::place_of;
use refusal::{NoMemory, Stop};
use std::alloc::Global;

/// Where a unit stands in the file, and the size of its offsets.
#[derive(Clone, Copy, Debug)]
pub(crate) struct Extent {
    pub at: u64,
    pub end: u64,
    pub shape: UnitShape,
}

/// Adds a unit that is passed over.
fn skip(so_far: &mut UnitsRead<'_>, extent: Extent) -> Result<(), NoMemory>
    ensures { OnOk result (SkipsUnit so_far.old so_far.new extent) }
{
    so_far.skipped.push((extent.at, extent.end))?;
    Ok(())
}

/// Adds a unit that was read.
fn push(units: &mut Vec<Unit>, unit: Unit) -> Result<(), NoMemory>
    ensures { OnOk result (units.new.items ≡ units.old.items ++ unit ∷ []) }
{
    units.push(unit)?;
    Ok(())
}

/// Reads the entries of a unit by its table of abbreviations.
fn read_by_table<'a>(
    cur: &mut Cur<'a>,
    extent: Extent,
    version: u16,
    table: &Table,
    so_far: &mut UnitsRead<'a>,
) -> Result<(), Stop>
    requires whole { IsWhole so_far.old.entries }
    requires few { length so_far.old.units.items < 2 ^ 32 }
    ensures { ReadsUnit result so_far.old so_far.new
        (unit_by_table (extent_of extent) version (list_of table.now) (units_of so_far.old)
        cur.old) }
{
    let first = so_far.entries.rows.len();
    let of = OpenUnit {
        unit: so_far.units.len() as u32,
        shape: extent.shape,
    };
    read_entries(cur, table, of, &mut so_far.entries)?;
    let count = so_far.entries.rows.len().saturating_sub(first);
    let unit = Unit {
        at: extent.at,
        end: extent.end,
        version,
        wide: extent.shape.wide,
        first: first as u32,
        count: count as u32,
    };
    push(&mut so_far.units, unit)?;
    Ok(())
}

/// Reads the entries of a unit whose header was read. Its table of abbreviations is read for the
/// first unit that refers to it.
fn read_unit<'a>(
    alloc: Global,
    cur: &mut Cur<'a>,
    extent: Extent,
    head: &Header<'_>,
    tables: &mut Tables<'_>,
    so_far: &mut UnitsRead<'a>,
) -> Result<(), Stop>
    requires whole { IsWhole so_far.old.entries }
    requires few { length so_far.old.units.items < 2 ^ 32 }
    requires ours { StandsIn tables.old (Some head.now) }
    ensures same { tables.new ≡ tables.old }
    ensures read { ReadsUnit result so_far.old so_far.new
        (unit_behind (extent_of extent) (Some head.now) (units_of so_far.old) cur.old) }
{
    let table = tables.take_or_read(alloc, head.abbrevs)?;
    read_by_table(cur, extent, head.version, &table, so_far)?;
    tables.keep(table)?;
    Ok(())
}

/// Reads a unit from behind its length to its end, or passes it over.
#[tactic(auto, unfolding(unit_model::specs::Units::unit_body), using(crate::proofs::UnitLemmas::skip_lemmas))]
fn read_body<'a>(
    alloc: Global,
    cur: &mut Cur<'a>,
    extent: Extent,
    size: u64,
    tables: &mut Tables<'_>,
    so_far: &mut UnitsRead<'a>,
) -> Result<(), Stop>
    requires whole { IsWhole so_far.old.entries }
    requires few { length so_far.old.units.items < 2 ^ 32 }
    ensures same { tables.new ≡ tables.old }
    ensures read { ReadsUnit result so_far.old so_far.new
        (unit_body tables.old (extent_of extent) size (units_of so_far.old) cur.old) }
{
    if size == 0 {
        skip(so_far, extent)?;
        return Ok(());
    }
    let Some(head) = read_header(cur, extent.shape, tables.section())? else {
        skip(so_far, extent)?;
        return Ok(());
    };
    read_unit(alloc, cur, extent, &head, tables, so_far)
}

/// Reads the next unit, or passes it over.
#[tactic(auto, unfolding(unit_model::specs::Units::next_unit))]
pub(crate) fn read_next<'a>(
    alloc: Global,
    cur: &mut Cur<'a>,
    tables: &mut Tables<'_>,
    so_far: &mut UnitsRead<'a>,
) -> Result<(), Stop>
    requires whole { IsWhole so_far.old.entries }
    requires few { length so_far.old.units.items < 2 ^ 32 }
    ensures same { tables.new ≡ tables.old }
    ensures read { ReadsNext result so_far.old so_far.new cur.new
        (next_unit tables.old (units_of so_far.old) cur.old) }
    ensures shorter { OnOk result (length cur.new.left < length cur.old.left) }
{
    let at = cur.at();
    let (wide, size) = read_length(cur)?;
    let start = cur.at();
    let extent = Extent {
        at: at as u64,
        end: start as u64 + size,
        shape: UnitShape { wide },
    };
    match cur.sub(size) {
        Ok(mut body) => read_body(alloc, &mut body, extent, size, tables, so_far),
        Err(fault) => Err(Stop::Refused(place_of(fault, start))),
    }
}

/// Reads the units of a section.
fn read_section<'a>(
    alloc: Global,
    part: Part<'a>,
    abbrev: Option<Part<'_>>,
) -> Result<Units<'a>, Stop>
    requires { part.len ≤ 2 ^ 30 }
    ensures { JudgesUnlessNoMemory
        (refused_at (units_told_in (option_map start_of abbrev.entry) (start_of part.entry)))
        result (IsRead (units_told_in (option_map start_of abbrev.entry) (start_of part.entry))) }
{
    let mut tables = Tables::new(alloc, abbrev);
    let mut so_far = UnitsRead::new(alloc);
    let mut cur = Cur::new(part);
    while cur.left() > 0 {
        read_next(alloc, &mut cur, &mut tables, &mut so_far)?;
    }
    Ok(Units { so_far })
}

/// Reads the units of `.debug_info` with all their entries. `abbrev` is `.debug_abbrev`. Without
/// `.debug_info` there are none.
///
/// Units of DWARF 4 and 5 are read; units of DWARF 2 and 3, units of other types than
/// `DW_UT_compile` and `DW_UT_partial`, and units of length 0 are passed over.
///
/// # Errors
/// The first place where the bytes break a rule of docs/FORMATS.md ("Units"): unit by unit, of each
/// the header's fields in their order, the abbreviations, and the entries with their values.
///
/// Source: DWARF 5, sections 7.5.1 to 7.5.6; DWARF 4, section 7.5.
pub fn read_units<'a>(
    alloc: Global,
    info: Option<Part<'a>>,
    abbrev: Option<Part<'_>>,
) -> Result<Units<'a>, Stop>
    requires { IfSome info (λ part. part.len ≤ 2 ^ 30) }
    ensures { JudgesUnlessNoMemory (refused_at (units_told info.entry abbrev.entry)) result
        (IsRead (units_told info.entry abbrev.entry)) }
{
    match info {
        Some(part) => read_section(alloc, part, abbrev),
        None => Ok(Units {
            so_far: UnitsRead::new(alloc),
        }),
    }
}
