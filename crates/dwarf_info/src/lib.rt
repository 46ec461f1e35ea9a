//! The units of debugging information, with all their entries and the attributes that are wanted;
//! the tags and attributes that are asked for, by the standard's names.
//!
//! `read_units` reads `.debug_info` and its abbreviations; the `Units` that it answers lends the
//! entries of each unit, one at a time, and finds the one that begins at an offset.
//!
//! Source: DWARF 5, sections 7.5.1 to 7.5.5; DWARF 4, section 7.5.
#![tactic(auto)]

mod attributes;
mod constants;
mod entries;
mod header;
mod kinds;
mod numbers;
mod packed;
mod rows;
mod tables;
mod unit_entries;
mod units;
mod values;
mod wanted;

pub use attributes::Attributes;
pub use constants::{
    DW_AT_ABSTRACT_ORIGIN, DW_AT_ADDR_BASE, DW_AT_CALL_LINE, DW_AT_DECL_LINE,
    DW_AT_GNU_DISCRIMINATOR, DW_AT_HIGH_PC, DW_AT_LINKAGE_NAME, DW_AT_LOW_PC,
    DW_AT_MIPS_LINKAGE_NAME, DW_AT_NAME, DW_AT_RANGES, DW_AT_RNGLISTS_BASE, DW_AT_SPECIFICATION,
    DW_AT_STMT_LIST, DW_AT_STR_OFFSETS_BASE, DW_TAG_COMPILE_UNIT, DW_TAG_INLINED_SUBROUTINE,
    DW_TAG_PARTIAL_UNIT, DW_TAG_SUBPROGRAM,
};
pub use rows::{Entry, Found, Unit, Units};
pub use unit_entries::UnitEntries;
pub use units::read_units;
