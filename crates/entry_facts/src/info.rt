use dwarf_info::Units;
use dwarf_strings::Texts;

/// The debugging information of a file: its units and entries, and the sections of its texts.
#[derive(Clone, Copy)]
pub struct Info<'a, 'u> {
    /// Where `.debug_info` begins in the file.
    pub start: usize,
    pub units: &'u Units<'a>,
    pub texts: &'u Texts<'a>,
}
