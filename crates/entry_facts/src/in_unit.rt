use dwarf_ranges::RangeParts;
use dwarf_strings::Bases;

/// What the ranges of a unit's entries are read by.
#[derive(Clone, Copy, Debug)]
pub struct InUnit<'a> {
    /// The sections that range lists and addresses stand in.
    pub parts: RangeParts<'a>,
    /// The version of the unit.
    pub version: u16,
    /// The base address of the unit.
    pub base: u64,
    /// What the indexes of the unit count from.
    pub bases: Bases,
}
