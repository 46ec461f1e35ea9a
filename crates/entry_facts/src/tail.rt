use dwarf_strings::Bases;

/// What a list comes to from a place on, counted from a base: so many entries at most, and live
/// ranges, which lie from one index up to another among all that are kept.
#[derive(Clone, Copy)]
pub(crate) struct Tail {
    pub base: u64,
    pub bases: Bases,
    pub entries: u64,
    pub from: usize,
    pub to: usize,
}

/// A place where the reader of a list stood: its place in the file and the base there, and how many
/// entries and live ranges it had passed.
#[derive(Clone, Copy)]
pub(crate) struct ListMark {
    pub at: u64,
    pub base: u64,
    pub passed: u64,
    pub found: usize,
}

/// What is left of a list: so many entries, and their live ranges.
#[derive(Drop)]
pub(crate) struct Rest {
    pub entries: u64,
    pub live: Vec<(u64, u64)>,
}

/// A list that was read: how many entries it has, its live ranges, and places where its reader
/// stood.
#[derive(Drop)]
pub(crate) struct Walked {
    pub entries: u64,
    pub live: Vec<(u64, u64)>,
    pub marks: Vec<ListMark>,
}
