/// A row of the line table of a unit.
///
/// `address` is the first address that the row tells of. `line` counts from 1, and is 0 where the
/// code there has no line. `disc` is the discriminator. A row that `ends` a sequence tells only
/// where that is: `address` is the first one behind the sequence.
///
/// Source: DWARF 5, section 6.2.2.
#[derive(Clone, Copy, Debug, PartialEq, Eq)]
pub struct Row {
    pub address: u64,
    pub line: u32,
    pub disc: u32,
    pub ends: bool,
}
