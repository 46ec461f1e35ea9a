// The row tables of all units.
ghost use Rattle.std.specs.Prelude.{◌≡◌, ◌<◌, ◌∷◌, ◌++◌, [], length, IfOk, OnOk, Some};
ghost use Rattle.std.specs.List.{slice_get};
ghost use Rattle.std.specs.Option.{option_map};
ghost use Rattle.std.specs.Result.{result_err};
ghost use Rattle.refusal.specs.Place.{JudgesUnlessNoMemory};
ghost use Rattle.placed_view.specs.Reader.{start_of};
ghost use Rattle.binary_model.specs.LinePrograms.{rows_of_units};
ghost use Rattle.binary_places.specs.Shared.{HasTable, IsTable};
ghost use Rattle.binary_places.specs.Tables.{AreTables};

use crate::programs::program_of;
use crate::shared::{UnitRows, count, keep, rows_of_unit};
use byte_view::Part;
use dwarf_info::Units;
use elf_sections::Elf;
use refusal::{NoMemory, Stop};
use row_table::RowTable;
use std::alloc::Global;
use std::collections::BTreeMap;

/// The table of the unit of an index among those before, once more.
fn table_again(tables: &[Option<RowTable>], unit: usize) -> Result<Option<RowTable>, NoMemory>
    requires { unit < length tables.now }
    ensures { IfOk result (λ table. slice_get tables.now unit ≡ Some table) }
{
    match &tables[unit] {
        Some(table) => Ok(Some(table.try_clone()?)),
        None => Ok(None),
    }
}

/// The table of a unit's rows, where it has a line program. Those of the units before stand in
/// `tables`.
fn table_of(
    alloc: Global,
    elf: &Elf<'_>,
    rows: &UnitRows,
    tables: &[Option<RowTable>],
) -> Result<Option<RowTable>, NoMemory>
    requires { HasTable (length tables.now) rows.now }
    ensures { IfOk result (IsTable elf.now tables.now rows.now) }
{
    match rows {
        UnitRows::Absent => Ok(None),
        UnitRows::Read(_, rows) => Ok(Some(RowTable::make(alloc, rows, elf)?)),
        UnitRows::Again(known) => table_again(tables, known.unit),
    }
}

/// Adds the table of the next unit.
fn push(tables: &mut Vec<Option<RowTable>>, table: Option<RowTable>) -> Result<(), NoMemory>
    ensures { OnOk result (tables.new.items ≡ tables.old.items ++ table ∷ []) }
{
    tables.push(table)?;
    Ok(())
}

/// The table of each unit, in the order of the units.
///
/// # Errors
/// The first bad place of the units' line programs, in the order of the units. The limit of rows is
/// one for all of them; those of a program that several units name count for each.
pub(crate) fn read_tables(
    alloc: Global,
    elf: &Elf<'_>,
    units: &Units<'_>,
    line: Option<Part<'_>>,
) -> Result<Vec<Option<RowTable>>, Stop>
    ensures { let told = rows_of_units (option_map start_of line.entry) units.now in
        JudgesUnlessNoMemory (result_err told) result
        (λ tables. AreTables elf.now told tables.items) }
{
    let mut tables = Vec::new(alloc);
    let mut known = BTreeMap::new(alloc);
    let mut before = 0;
    for index in 0..units.units().len() {
        let program = program_of(units, index as u32);
        let rows = rows_of_unit(alloc, line, program, &known, before)?;
        let table = table_of(alloc, elf, &rows, &tables)?;
        keep(&mut known, index, &rows)?;
        push(&mut tables, table)?;
        before += count(&rows);
    }
    Ok(tables)
}
