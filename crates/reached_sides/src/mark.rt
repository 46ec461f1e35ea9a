/// A way to take an arc.
#[derive(Clone, Copy, Debug, PartialEq, Eq)]
pub enum Way {
    /// From its tail to its head, which raises its count.
    Along,
    /// From its head to its tail, which lowers its count.
    Against,
}

/// What a search knows of a side that it has reached.
#[derive(Clone, Copy, Debug, PartialEq, Eq)]
pub struct Mark {
    /// How far the side is from the source, by reduced costs.
    pub distance: u64,
    /// The arc over which the side was reached, by its place in the network.
    pub arc: u32,
    /// The way in which that arc was taken.
    pub way: Way,
    /// How many sides had been settled before this one, if it has been.
    pub rank: Option<u32>,
}
