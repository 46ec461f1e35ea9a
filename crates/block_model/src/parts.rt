/// The least and the greatest count of a block or an edge.
#[derive(Clone, Copy, Debug, PartialEq, Eq)]
pub struct Bound {
    /// The least count: below 2^44.
    pub lower: u64,
    /// The greatest count, if there is one: below 2^44.
    pub upper: Option<u64>,
}

/// A basic block: the addresses from `lo` on that are below `hi`.
#[derive(Clone, Copy, Debug, PartialEq, Eq)]
pub struct Block {
    /// The first address.
    pub lo: u64,
    /// The address behind the last one.
    pub hi: u64,
    /// Whether the function can be left from here.
    pub exit: bool,
    /// How often the block may have run.
    pub bound: Bound,
}

/// A way from the end of one block to the start of another, or of the same one.
#[derive(Clone, Copy, Debug, PartialEq, Eq)]
pub struct Edge {
    /// The number of the block that is left, from 0.
    pub from: u32,
    /// The number of the block that is entered.
    pub to: u32,
    /// How often the edge may have been taken.
    pub bound: Bound,
}

/// How often a block or an edge was sampled.
#[derive(Clone, Copy, Debug, PartialEq, Eq)]
pub enum Weight {
    /// No sample could have told.
    Unknown,
    /// So often: below 2^44.
    Known(u64),
}
