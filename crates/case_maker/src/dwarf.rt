// Names of DWARF 5 for the numbers that stand in a generated binary (sections 7.5 and 7.22).

pub const DW_TAG_COMPILE_UNIT: u8 = 0x11;

pub const DW_TAG_INLINED_SUBROUTINE: u8 = 0x1d;

pub const DW_TAG_SUBPROGRAM: u8 = 0x2e;

pub const DW_CHILDREN_NO: u8 = 0;

pub const DW_CHILDREN_YES: u8 = 1;

pub const DW_AT_NAME: u8 = 0x03;

pub const DW_AT_STMT_LIST: u8 = 0x10;

pub const DW_AT_LOW_PC: u8 = 0x11;

pub const DW_AT_HIGH_PC: u8 = 0x12;

pub const DW_AT_ABSTRACT_ORIGIN: u8 = 0x31;

pub const DW_AT_DECL_LINE: u8 = 0x3b;

pub const DW_AT_CALL_LINE: u8 = 0x59;

/// GNU's 0x2136 as LEB128: the low seven bits, then the others.
pub const DW_AT_GNU_DISCRIMINATOR: [u8; 2] = [0xb6, 0x42];

pub const DW_FORM_ADDR: u8 = 0x01;

pub const DW_FORM_DATA2: u8 = 0x05;

pub const DW_FORM_DATA4: u8 = 0x06;

pub const DW_FORM_STRING: u8 = 0x08;

pub const DW_FORM_DATA1: u8 = 0x0b;

pub const DW_FORM_REF4: u8 = 0x13;

pub const DW_FORM_SEC_OFFSET: u8 = 0x17;

pub const DW_LNS_COPY: u8 = 1;

pub const DW_LNS_ADVANCE_PC: u8 = 2;

pub const DW_LNS_ADVANCE_LINE: u8 = 3;

pub const DW_LNE_END_SEQUENCE: u8 = 1;

pub const DW_LNE_SET_ADDRESS: u8 = 2;

pub const DW_LNE_SET_DISCRIMINATOR: u8 = 4;
