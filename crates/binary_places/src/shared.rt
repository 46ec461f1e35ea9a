// Line programs that several units name. Each is read for the first of them.
ghost use Rattle.std.specs.Prelude.{◌≡◌, ◌≤◌, ◌<◌, ◌+◌, IfSome, Some, OnOk};
ghost use Rattle.std.specs.Option.{option_map};
ghost use Rattle.std.specs.Ordering.{nat_cmp};
ghost use Rattle.std.specs.BTreeMap.{get};
ghost use Rattle.placed_view.specs.Reader.{start_of};
ghost use Rattle.line_model.specs.Program.{max_rows_of_all};
ghost use Rattle.binary_places.specs.Shared.{FitsBehind, GivesProgramRows, GivesUnitRows, Keeps, count_of};

use crate::programs::{NamedProgram, rows_from};
use byte_view::Part;
use line_program::Row;
use refusal::{NoMemory, Stop};
use std::alloc::Global;
use std::collections::BTreeMap;

/// The most rows of all units together.
const MAX_ROWS_OF_ALL: u64 = 1 << 26;

/// A line program that was read for a unit before.
// Why: A line program that several units name is read for the first of them, and its rows count for
// each. Past the limit it is read again, which tells the place.
#[derive(Clone, Copy, Debug)]
pub(crate) struct Known {
    /// The index of that unit among the units.
    pub unit: usize,
    /// How many rows the program has.
    pub rows: u64,
}

/// The rows of a unit.
#[derive(Drop)]
pub(crate) enum UnitRows {
    /// The unit names no line program.
    Absent,
    /// The program at an offset was read for this unit.
    Read(u64, Vec<Row>),
    /// They are those of a unit before.
    Again(Known),
}

/// How many rows there are.
pub(crate) fn count(rows: &UnitRows) -> u64
    ensures { result ≡ count_of rows.now }
{
    match rows {
        UnitRows::Absent => 0,
        UnitRows::Read(_, rows) => rows.len() as u64,
        UnitRows::Again(known) => known.rows,
    }
}

/// Whether so many rows may stand behind those of the units before.
fn fits(rows: u64, before: u64) -> bool
    requires { before ≤ max_rows_of_all }
    ensures { FitsBehind before rows result }
{
    rows <= MAX_ROWS_OF_ALL - before
}

/// The rows of a program. One that was read for a unit before is not read again, unless its rows
/// would be too many here: where it is refused, reading tells.
fn rows_of_program(
    alloc: Global,
    line: Option<Part<'_>>,
    program: NamedProgram,
    known: &BTreeMap<u64, Known>,
    before: u64,
) -> Result<UnitRows, Stop>
    requires { before ≤ max_rows_of_all }
    ensures { GivesProgramRows (option_map start_of line.entry) known.now before program result }
{
    if let Some(known) = known.get(&program.offset).copied() {
        if fits(known.rows, before) {
            return Ok(UnitRows::Again(known));
        }
    }
    match rows_from(alloc, line, program, before) {
        Ok(rows) => Ok(UnitRows::Read(program.offset, rows)),
        Err(stop) => Err(stop),
    }
}

/// The rows of a unit that names this program, if it names one. `before` is how many rows the
/// units before have.
///
/// # Errors
/// Those of `rows_from`.
pub(crate) fn rows_of_unit(
    alloc: Global,
    line: Option<Part<'_>>,
    program: Option<NamedProgram>,
    known: &BTreeMap<u64, Known>,
    before: u64,
) -> Result<UnitRows, Stop>
    requires { before ≤ max_rows_of_all }
    ensures { GivesUnitRows (option_map start_of line.entry) known.now before program result }
{
    match program {
        Some(program) => rows_of_program(alloc, line, program, known, before),
        None => Ok(UnitRows::Absent),
    }
}

/// Keeps that the program of these rows was read, for the unit of this index.
pub(crate) fn keep(
    known: &mut BTreeMap<u64, Known>,
    unit: usize,
    rows: &UnitRows,
) -> Result<(), NoMemory>
    ensures { OnOk result (Keeps unit rows.now known.old known.new) }
{
    let UnitRows::Read(offset, rows) = rows else {
        return Ok(());
    };
    let rows = rows.len() as u64;
    known.insert(*offset, Known { unit, rows })?;
    Ok(())
}
