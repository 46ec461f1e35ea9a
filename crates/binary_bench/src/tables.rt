// The row tables of a binary's units.
use byte_view::Part;
use dwarf_forms::Value;
use dwarf_info::{DW_AT_STMT_LIST, Unit, Units};
use elf_sections::Elf;
use entry_facts::attribute;
use line_program::rows;
use row_table::RowTable;
use std::alloc::Global;

/// The most rows of a file.
const MAX_ROWS: u64 = 1 << 26;

/// The tables of all units, and how many rows they were made of.
#[derive(Drop)]
pub(crate) struct Tables {
    pub tables: Vec<Option<RowTable>>,
    pub rows: u64,
}

impl Tables {
    /// Reads the line program of each unit that has one.
    pub fn read<'a>(alloc: Global, elf: &Elf<'a>, units: &Units<'a>) -> Option<Tables> {
        let lines = elf.section(b".debug_line").ok()?;
        let mut made = Tables {
            tables: Vec::new(alloc),
            rows: 0,
        };
        for unit in units.units() {
            let program = program_of(units, unit, lines);
            made.add(alloc, elf, program)?;
        }
        Some(made)
    }

    /// The table of the next unit, made of its line program.
    fn add(&mut self, alloc: Global, elf: &Elf<'_>, program: Option<Part<'_>>) -> Option<()> {
        let Some(program) = program else {
            return self.tables.push(None).ok();
        };
        if self.rows > MAX_ROWS {
            return None;
        }
        let rows = rows(alloc, program, self.rows).ok()?;
        self.rows = self.rows.checked_add(rows.len() as u64)?;
        let table = RowTable::make(alloc, &rows, elf).ok()?;
        self.tables.push(Some(table)).ok()
    }
}

/// Where the line program of a unit begins, up to the end of the section.
fn program_of<'a>(units: &Units<'_>, unit: &Unit, lines: Option<Part<'a>>) -> Option<Part<'a>> {
    let root = units.entry(unit.first as usize)?;
    let at = match attribute(&root.found, DW_AT_STMT_LIST)?.value {
        Value::Offset(at) | Value::Const(at) => at,
        _ => return None,
    };
    let lines = lines?;
    if at > lines.len as u64 {
        return None;
    }
    Some(Part {
        file: lines.file,
        at: lines.at + at as usize,
        len: lines.len - at as usize,
    })
}
