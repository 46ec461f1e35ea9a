// The line number state machine.
ghost use Rattle.std.specs.Prelude.{◌≡◌, ◌+◌, ◌<◌, ◌≤◌, ◌^◌, [], length, OnOk};
ghost use Rattle.refusal.specs.Place.{in_binary};
ghost use Rattle.line_model.specs.Fields.{unless};
ghost use Rattle.line_model.specs.Program.{is_full, is_open, rows_in};
ghost use Rattle.line_model.specs.Reading.{operation_at};
ghost use Rattle.line_model.specs.Registers.{start};
ghost use Rattle.line_program.specs.Machines.{AddsRow, behind_read, GivesNext};
ghost use Rattle.line_program.specs.Programs.{program_of};
ghost use Rattle.line_program.specs.Rows.{GivesEnd, GivesRows};
ghost use Rattle.refusal.specs.declared.kind.Kind.TheVariants.{NoEnd};

use crate::header::LineHeader;
use crate::program::LineProgram;
use crate::registers::Registers;
use byte_view::Cur;
use line_model::Row;
use refusal::{ItemStop, Kind, Place, Stop, refuse_if};
use std::alloc::Global;
use std::marker::Model;

/// The most rows of a program.
const MAX_ROWS: usize = 1 << 24;

/// The most rows of all programs of a file.
const MAX_ROWS_OF_ALL: u64 = 1 << 26;

/// The registers and the rows of a program, up to some operation of it.
#[derive(Debug, Drop)]
pub(crate) struct Machine {
    registers: Registers,
    rows: Vec<Row>,
    /// How many rows the programs before have.
    before: u64,
}

impl Model for Machine {
    ghost use Rattle.std.specs.Prelude.{◌≤◌, ◌^◌};
    ghost use Rattle.line_program.specs.State.{State};

    ghost Value = { State };

    ghost view = { λ m. record {
      machine = record { registers = m.registers; rows = m.rows.items };
      before = m.before;
    } };

    ghost invariant = { λ m. m.before ≤ 2 ^ 26 };
}

impl Machine {
    /// The machine at the start of a program.
    pub fn new(alloc: Global, before: u64) -> Machine
        requires { before ≤ 2 ^ 26 }
        ensures start { result.machine ≡ record { registers = start; rows = [] } }
        ensures before { result.before ≡ before }
    {
        Machine {
            registers: Registers::start(),
            rows: Vec::new(alloc),
            before,
        }
    }

    /// Whether no more rows are read.
    fn is_full(&self) -> bool
        ensures { result ≡ is_full self.now.before self.now.machine.rows }
    {
        self.rows.len() >= MAX_ROWS || self.before + self.rows.len() as u64 >= MAX_ROWS_OF_ALL
    }

    /// Whether rows stand behind the last end of a sequence.
    fn is_open(&self) -> bool
        ensures { result ≡ is_open self.now.machine.rows }
    {
        match self.rows.last() {
            Some(row) => !row.ends,
            None => false,
        }
    }

    /// Adds a row.
    fn add_row(&mut self, row: Row) -> Result<(), ItemStop>
        ensures added { AddsRow result self.old self.new row }
        ensures before { self.new.before ≡ self.old.before }
    {
        if self.is_full() {
            return Err(ItemStop::Refused(Kind::TooManyRows));
        }
        self.rows.push(row)?;
        Ok(())
    }

    /// Does the operation at the front.
    pub fn next(&mut self, header: &LineHeader<'_>, opcodes: &mut Cur<'_>) -> Result<(), ItemStop>
        ensures exact { GivesNext result self.new opcodes.new.left
            (behind_read header.now self.old.before self.old.machine
            (operation_at header.now opcodes.old.left)) }
        ensures shorter { OnOk result (length opcodes.new.left < length opcodes.old.left) }
        ensures before { self.new.before ≡ self.old.before }
    {
        let operation = header.operation(opcodes)?;
        match self.registers.step(header, operation)? {
            Some(row) => self.add_row(row),
            None => Ok(()),
        }
    }

    /// The rows, where the last sequence is ended.
    ///
    /// # Errors
    /// `NoEnd` at the program's end.
    fn into_rows(self, end: usize) -> Result<Vec<Row>, Place>
        ensures { GivesEnd result (unless (is_open self.machine.rows) (in_binary end NoEnd)
            self.machine.rows) }
    {
        refuse_if(self.is_open(), Place::in_binary(end, Kind::NoEnd))?;
        Ok(self.rows)
    }
}

/// The rows of a program, from its first opcode to its end.
///
/// # Errors
/// The place of the first operation that is refused, or of the end that is wanted.
pub(crate) fn rows_in(
    alloc: Global,
    program: LineProgram<'_>,
    before: u64,
) -> Result<Vec<Row>, Stop>
    requires { before ≤ 2 ^ 26 }
    ensures { GivesRows result (rows_in before (program_of program.entry)) }
{
    let LineProgram {
        header,
        mut opcodes,
    } = program;
    let mut machine = Machine::new(alloc, before);
    let end = opcodes.at() + opcodes.left();
    while opcodes.left() > 0 {
        let at = end - opcodes.left();
        match machine.next(&header, &mut opcodes) {
            Ok(()) => {}
            Err(stop) => return Err(stop.in_binary(at)),
        }
    }
    Ok(machine.into_rows(end)?)
}
