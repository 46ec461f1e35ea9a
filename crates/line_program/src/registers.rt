ghost use Rattle.std.specs.Prelude.{◌≡◌, ◌-◌, true, false};
ghost use Rattle.line_model.specs.Registers as model;
ghost use Rattle.line_program.specs.Steps.{GivesMoved, GivesStep};

use crate::fault::Fault;
use crate::header::LineHeader;
use line_model::{Operation, Row};
use refusal::Kind;
use std::marker::Model;

/// The registers of the line number state machine that rows are made of.
///
/// Source: DWARF 5, section 6.2.2.
#[derive(Debug, Drop)]
pub(crate) struct Registers {
    address: u64,
    line: u32,
    disc: u32,
}

impl Model for Registers {
    ghost use Rattle.line_model.specs.Registers.{Registers};

    ghost Value = { Registers };

    ghost view = { λ r. record { address = r.address; line = r.line; disc = r.disc } };
}

impl Registers {
    /// The registers at the start of each sequence.
    pub fn start() -> Registers
        ensures { result ≡ model.start }
    {
        Registers {
            address: 0,
            line: 1,
            disc: 0,
        }
    }

    /// Moves the address by so many bytes.
    fn bytes_on(&mut self, bytes: u64)
        ensures { self.new ≡ model.bytes_on bytes self.old }
    {
        self.address = self.address.wrapping_add(bytes);
    }

    /// Moves the address by so many instructions.
    fn instructions_on(&mut self, header: &LineHeader<'_>, instructions: u64)
        ensures { self.new ≡ model.instructions_on header.now instructions self.old }
    {
        self.bytes_on(instructions.wrapping_mul(u64::from(header.min_inst_length)));
    }

    /// Moves the line.
    ///
    /// # Errors
    /// `LineOverflow` where that is no line.
    fn lines_on(&mut self, lines: i64) -> Result<(), Fault>
        ensures { GivesMoved result self.new (model.lines_on lines self.old) }
    {
        let moved = i64::from(self.line).checked_add(lines);
        let Some(line) = moved.and_then(|line| u32::try_from(line).ok()) else {
            return Err(Fault {
                kind: Kind::LineOverflow,
            });
        };
        self.line = line;
        Ok(())
    }

    /// The row of the registers.
    fn row(&self, ends: bool) -> Row
        ensures { result ≡ model.row_of ends self.now }
    {
        Row {
            address: self.address,
            line: self.line,
            disc: self.disc,
            ends,
        }
    }

    /// The row that is added. The discriminator is that of no other.
    fn add_row(&mut self) -> Row
        ensures row { result ≡ model.row_of false self.old }
        ensures behind { self.new ≡ record self.old { disc = 0 } }
    {
        let row = self.row(false);
        self.disc = 0;
        row
    }

    /// The row that ends a sequence, behind which the registers begin anew.
    fn end_sequence(&mut self) -> Row
        ensures row { result ≡ model.row_of true self.old }
        ensures behind { self.new ≡ model.start }
    {
        let row = self.row(true);
        *self = Registers::start();
        row
    }

    /// Does what a special opcode says, counted from the first one.
    fn special(&mut self, header: &LineHeader<'_>, adjusted: u8) -> Result<Option<Row>, Fault>
        ensures { GivesStep result self.new (model.step_of header.now self.old
            (Operation.Special adjusted)) }
    {
        let lines = i64::from(header.line_base) + i64::from(adjusted % header.line_range);
        self.instructions_on(header, u64::from(adjusted / header.line_range));
        self.lines_on(lines)?;
        let row = self.add_row();
        Ok(Some(row))
    }

    /// Moves the address as special opcode 255 does.
    // Why: There is no table of advances: division is fast enough.
    fn const_add_pc(&mut self, header: &LineHeader<'_>)
        ensures { self.new ≡ model.instructions_on header.now
            (model.special_instructions header.now (255 - header.now.opcode_base)) self.old }
    {
        let adjusted = 255 - header.opcode_base;
        self.instructions_on(header, u64::from(adjusted / header.line_range));
    }

    /// Does what an operation says, and answers the row that it adds, if it adds one.
    ///
    /// # Errors
    /// `LineOverflow` where the line would fall below 0 or pass 2^32 - 1.
    pub fn step(
        &mut self,
        header: &LineHeader<'_>,
        operation: Operation,
    ) -> Result<Option<Row>, Fault>
        ensures { GivesStep result self.new (model.step_of header.now self.old operation) }
    {
        macro_rules! moves {
            ($move:expr) => {{
                $move;
                Ok(None)
            }};
        }
        macro_rules! sets {
            ($register:ident to $value:expr) => {{
                self.$register = $value;
                Ok(None)
            }};
        }
        match operation {
            Operation::Special(adjusted) => self.special(header, adjusted),
            Operation::Copy => Ok(Some(self.add_row())),
            Operation::AdvancePc(instructions) => {
                moves!(self.instructions_on(header, instructions))
            }
            Operation::AdvanceLine(lines) => moves!(self.lines_on(lines)?),
            Operation::ConstAddPc => moves!(self.const_add_pc(header)),
            Operation::FixedAdvancePc(bytes) => moves!(self.bytes_on(u64::from(bytes))),
            Operation::EndSequence => Ok(Some(self.end_sequence())),
            Operation::SetAddress(address) => sets!(address to address),
            Operation::SetDiscriminator(disc) => sets!(disc to disc),
            Operation::Pass => Ok(None),
        }
    }
}
