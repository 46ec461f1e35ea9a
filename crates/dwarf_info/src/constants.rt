// The tags and attributes that are asked for, each by the name and the number that DWARF 5 gives
// it: sections 7.5.3, table 7.3, and 7.5.4, table 7.5. The attributes from 0x2000 on are of GNU and
// MIPS.

/// The root of a unit.
pub const DW_TAG_COMPILE_UNIT: u64 = 0x11;

/// The root of a unit of which several others can be made.
pub const DW_TAG_PARTIAL_UNIT: u64 = 0x3c;

/// A function.
pub const DW_TAG_SUBPROGRAM: u64 = 0x2e;

/// A call that is inlined.
pub const DW_TAG_INLINED_SUBROUTINE: u64 = 0x1d;

/// The name as the source has it.
pub const DW_AT_NAME: u64 = 0x03;

/// The name as the linker has it.
pub const DW_AT_LINKAGE_NAME: u64 = 0x6e;

/// The name as the linker has it, by the number that it had before DWARF 4.
pub const DW_AT_MIPS_LINKAGE_NAME: u64 = 0x2007;

/// Where the line program of a unit stands.
pub const DW_AT_STMT_LIST: u64 = 0x10;

/// What the indexes of texts count from.
pub const DW_AT_STR_OFFSETS_BASE: u64 = 0x72;

/// What the indexes of addresses count from.
pub const DW_AT_ADDR_BASE: u64 = 0x73;

/// What the indexes of range lists count from.
pub const DW_AT_RNGLISTS_BASE: u64 = 0x74;

/// The first address; of a root, the base address of its unit.
pub const DW_AT_LOW_PC: u64 = 0x11;

/// The end, or how far it is behind the first address.
pub const DW_AT_HIGH_PC: u64 = 0x12;

/// A range list.
pub const DW_AT_RANGES: u64 = 0x55;

/// The function that a call was inlined from, or of which an entry is a copy.
pub const DW_AT_ABSTRACT_ORIGIN: u64 = 0x31;

/// The declaration of a function that is defined elsewhere.
pub const DW_AT_SPECIFICATION: u64 = 0x47;

/// The line of the declaration, from which a profile counts lines.
pub const DW_AT_DECL_LINE: u64 = 0x3b;

/// The line of an inlined call.
pub const DW_AT_CALL_LINE: u64 = 0x59;

/// The discriminator of an inlined call.
pub const DW_AT_GNU_DISCRIMINATOR: u64 = 0x2136;
