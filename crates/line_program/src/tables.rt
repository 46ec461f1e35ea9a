ghost use Rattle.std.specs.Prelude.{◌≡◌};
ghost use Rattle.line_model.specs.Opcodes.{standard_opcodes, extended_opcodes, look_up};
ghost use Rattle.line_program.specs.Tables.{operand_in};

use dwarf_forms::FormTable;

/// The standard opcodes that are known, from `DW_LNS_copy` to `DW_LNS_set_isa`. That they ascend is
/// proved where one is looked up.
///
/// Source: DWARF 5, section 7.22, table 7.25.
pub const STANDARD: FormTable<12> = FormTable {
    codes: [1, 2, 3, 4, 5, 6, 7, 8, 9, 10, 11, 12],
};

/// The extended opcodes that are known, from `DW_LNE_end_sequence` to `DW_LNE_set_discriminator`.
/// That they ascend is proved where one is looked up.
///
/// Source: DWARF 5, section 7.22, table 7.26.
pub const EXTENDED: FormTable<4> = FormTable {
    codes: [1, 2, 3, 4],
};

/// The place of a standard opcode in its table.
pub(crate) fn standard_place(opcode: u8) -> Option<usize>
    ensures { operand_in standard_opcodes result ≡ look_up standard_opcodes opcode }
{
    STANDARD.index_of(u64::from(opcode))
}

/// The place of the code of an extended opcode in its table.
pub(crate) fn extended_place(code: u8) -> Option<usize>
    ensures { operand_in extended_opcodes result ≡ look_up extended_opcodes code }
{
    EXTENDED.index_of(u64::from(code))
}
