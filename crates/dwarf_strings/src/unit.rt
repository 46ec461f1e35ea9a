use byte_view::Part;

/// What the indexes of a unit count from, where its root says so, and the size of its offsets.
///
/// The bases are offsets in `.debug_str_offsets`, `.debug_addr` and `.debug_rnglists`.
///
/// Source: DWARF 5, sections 7.26 to 7.28.
#[derive(Clone, Copy, Debug, PartialEq, Eq)]
pub struct Bases {
    /// The unit is in 64-bit DWARF: offsets in its tables have 8 bytes. Else they have 4.
    pub wide: bool,
    pub str_offsets: Option<u64>,
    pub addr: Option<u64>,
    pub rnglists: Option<u64>,
}

/// The sections that texts and addresses stand in, where the file has them.
#[derive(Clone, Copy, Debug)]
pub struct Texts<'a> {
    pub str: Option<Part<'a>>,
    pub line_str: Option<Part<'a>>,
    pub str_offsets: Option<Part<'a>>,
    pub addr: Option<Part<'a>>,
}
