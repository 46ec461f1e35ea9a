// The line programs of units.
ghost use Rattle.std.specs.Prelude.{◌≤◌};
ghost use Rattle.std.specs.Option.{option_map};
ghost use Rattle.placed_view.specs.Reader.{start_of};
ghost use Rattle.line_model.specs.Program.{max_rows_of_all};
ghost use Rattle.line_program.specs.Rows.{GivesRows};
ghost use Rattle.binary_model.specs.LinePrograms.{rows_from as rows_from_told};
ghost use Rattle.binary_places.specs.Tables.{IsNamed, IsRest};

use byte_view::Part;
use dwarf_info::{DW_AT_STMT_LIST, Units};
use entry_facts::{root_attribute, section_place};
use line_program::{Row, rows};
use refusal::{Kind, Place, Stop};
use std::alloc::Global;

/// A line program, as a unit names it.
#[derive(Clone, Copy)]
pub(crate) struct NamedProgram {
    /// Where the value that names it stands in the file.
    pub at: u64,
    /// Where it begins in `.debug_line`.
    pub offset: u64,
}

/// The line program that the unit of an index among the units names by its root, if it names one.
///
/// Source: DWARF 5, section 3.1.1.
#[tactic(auto, unfolding(binary_model::specs::LinePrograms::rows_of_unit))]
pub(crate) fn program_of(units: &Units<'_>, index: u32) -> Option<NamedProgram>
    ensures { IsNamed units.now index result }
{
    let found = root_attribute(units, index, DW_AT_STMT_LIST)?;
    let offset = section_place(found.value)?;
    Some(NamedProgram {
        at: found.at,
        offset,
    })
}

/// The rest of a section from an offset on, where that is not past the section's end.
fn rest_from<'a>(section: Part<'a>, offset: u64) -> Option<Part<'a>>
    ensures { IsRest (start_of section.entry) offset result }
{
    if offset > section.len as u64 {
        return None;
    }
    let skip = offset as usize;
    Some(Part {
        file: section.file,
        at: section.at + skip,
        len: section.len - skip,
    })
}

/// The rows of a program. `before` is how many rows the units before have.
///
/// # Errors
/// `NoSection` where there is no `.debug_line`, and `PastSection` where the program would begin
/// past its end, both at the value that names it; else the first bad place of the program.
pub(crate) fn rows_from(
    alloc: Global,
    line: Option<Part<'_>>,
    program: NamedProgram,
    before: u64,
) -> Result<Vec<Row>, Stop>
    requires { before ≤ max_rows_of_all }
    ensures { GivesRows result
        (rows_from_told before (option_map start_of line.entry) program.at program.offset) }
{
    let at = program.at as usize;
    let Some(section) = line else {
        return Err(Stop::Refused(Place::in_binary(at, Kind::NoSection)));
    };
    let Some(rest) = rest_from(section, program.offset) else {
        return Err(Stop::Refused(Place::in_binary(at, Kind::PastSection)));
    };
    rows(alloc, rest, before)
}
