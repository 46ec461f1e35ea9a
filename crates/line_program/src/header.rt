use std::marker::Model;

/// What a program's header says to its operations.
///
/// Source: DWARF 5, section 6.2.4.
#[derive(Debug, Drop)]
pub(crate) struct LineHeader<'a> {
    pub min_inst_length: u8,
    pub line_base: i8,
    pub line_range: u8,
    pub opcode_base: u8,
    /// How many operands the opcodes from 1 on have.
    pub opcode_lengths: &'a [u8],
}

impl<'a> Model for LineHeader<'a> {
    ghost use Rattle.line_model.specs.Header.{Header};
    ghost use Rattle.line_program.specs.Headers.{IsGood};

    ghost Value = { Header };

    ghost view = { λ h. record {
      min_inst_length = h.min_inst_length;
      line_base = h.line_base;
      line_range = h.line_range;
      opcode_base = h.opcode_base;
      opcode_lengths = h.opcode_lengths.now;
    } };

    ghost invariant = { λ h. IsGood h.line_range h.opcode_base h.opcode_lengths.now };
}
