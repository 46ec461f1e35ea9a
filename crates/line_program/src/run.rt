ghost use Rattle.std.specs.Prelude.{◌≤◌};
ghost use Rattle.refusal.specs.Place.{JudgesUnlessNoMemory};
ghost use Rattle.line_model.specs.Program.{AreRowsOf, first_bad_of, max_rows_of_all, rows_at};
ghost use Rattle.line_program.specs.Headers.{cursor_of};
ghost use Rattle.line_program.specs.Rows.{GivesRows};

use crate::machine::rows_in;
use crate::program::LineProgram;
use byte_view::Part;
use line_model::Row;
use refusal::Stop;
use std::alloc::Global;

/// The rows of the line number program at the start of a piece, which is the rest of its section.
/// `before` is how many rows the programs before it have, at most 2^26.
///
/// # Errors
/// `Refused` at the first bad place: of the header at the field, of an operation at its first byte,
/// and `NoEnd` at the program's end. `TooManyRows` stands at the operation that adds the
/// 16,777,217th row of the program, or the 67,108,865th of all. docs/FORMATS.md ("Line programs")
/// has every cause.
///
/// Source: DWARF 5, sections 6.2.2 to 6.2.5.
#[tactic(auto, unfolding(line_model::specs::Program::rows_at))]
pub fn rows(alloc: Global, part: Part<'_>, before: u64) -> Result<Vec<Row>, Stop>
    requires { before ≤ max_rows_of_all }
    ensures judged { JudgesUnlessNoMemory (first_bad_of before (cursor_of part.entry)) result
        (λ rows. AreRowsOf (cursor_of part.entry) rows.items) }
    ensures exact { GivesRows result (rows_at before (cursor_of part.entry)) }
{
    let program = LineProgram::read(part)?;
    rows_in(alloc, program, before)
}
