ghost use Rattle.line_model.specs.Fields.{header_at, program_at};
ghost use Rattle.line_program.specs.Headers.{cursor_of, GivesHeader};
ghost use Rattle.line_program.specs.Programs.{GivesProgram};

use crate::fields::LineFields;
use crate::header::LineHeader;
use byte_view::{Cur, Part};
use refusal::{Kind, Place};

/// A program whose header is good: the header, and the bytes from the first opcode on.
#[derive(Debug, Drop)]
pub(crate) struct LineProgram<'a> {
    pub header: LineHeader<'a>,
    pub opcodes: Cur<'a>,
}

impl<'a> LineProgram<'a> {
    /// Reads the header of the program at the start of a piece.
    ///
    /// # Errors
    /// The place of the first field that is bad.
    ///
    /// Source: DWARF 5, section 6.2.4.
    #[tactic(auto, unfolding(line_model::specs::Fields::program_at))]
    pub fn read(part: Part<'a>) -> Result<LineProgram<'a>, Place>
        ensures { GivesProgram result (program_at (cursor_of part.entry)) }
    {
        let (wide, mut fields) = LineFields::of_unit(part)?;
        let version = fields.version()?;
        fields.pass_sizes(version)?;
        let opcodes = fields.opcodes(wide)?;
        let header = read_header(version, &mut fields)?;
        Ok(LineProgram { header, opcodes })
    }
}

/// Reads the fields from the minimum instruction length on.
#[tactic(auto, unfolding(line_model::specs::Fields::header_at))]
fn read_header<'a>(version: u16, fields: &mut LineFields<'a>) -> Result<LineHeader<'a>, Place>
    ensures { GivesHeader result (header_at version fields.old.cur) }
{
    let min_inst_length = fields.u8()?;
    fields.pass_operations(version)?;
    let _default_is_stmt = fields.u8()?;
    let line_base = fields.u8()?.cast_signed();
    let line_range = fields.above_0(Kind::BadLineRange)?;
    let opcode_base = fields.above_0(Kind::BadOpcodeBase)?;
    let opcode_lengths = fields.lengths(opcode_base - 1)?;
    Ok(LineHeader {
        min_inst_length,
        line_base,
        line_range,
        opcode_base,
        opcode_lengths,
    })
}
