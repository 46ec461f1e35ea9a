/// One operation of a line number program, with the operand that it goes by.
///
/// Source: DWARF 5, section 6.2.5.
#[derive(Clone, Copy, Debug, PartialEq, Eq)]
pub enum Operation {
    /// A special opcode, counted from the first one: it moves the address and the line, and adds a
    /// row.
    Special(u8),
    /// `DW_LNS_copy`: adds a row.
    Copy,
    /// `DW_LNS_advance_pc`: moves the address by so many instructions.
    AdvancePc(u64),
    /// `DW_LNS_advance_line`: moves the line.
    AdvanceLine(i64),
    /// `DW_LNS_const_add_pc`: moves the address as special opcode 255 does.
    ConstAddPc,
    /// `DW_LNS_fixed_advance_pc`: moves the address by so many bytes.
    FixedAdvancePc(u16),
    /// `DW_LNE_end_sequence`: adds the row that ends a sequence, and begins anew.
    EndSequence,
    /// `DW_LNE_set_address`: sets the address.
    SetAddress(u64),
    /// `DW_LNE_set_discriminator`: sets the discriminator of the next row.
    SetDiscriminator(u32),
    /// An operation that changes nothing of a row: one on files, columns or flags, or one that is
    /// not known and passed over.
    Pass,
}
