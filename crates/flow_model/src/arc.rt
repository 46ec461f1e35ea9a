/// An arc of a network, from `tail` to `head`, with the bounds and the cost of the count on it.
///
/// A count costs `up` for each unit above `weight` and `down` for each unit below it.
#[derive(Clone, Copy, Debug, PartialEq, Eq)]
pub struct Arc {
    /// The node that the arc leaves.
    pub tail: u32,
    /// The node that the arc enters.
    pub head: u32,
    /// The least count.
    pub lower: u64,
    /// The greatest count, if there is one.
    pub upper: Option<u64>,
    /// The count that costs nothing.
    pub weight: u64,
    /// What a unit above the weight costs.
    pub up: u64,
    /// What a unit below the weight costs.
    pub down: u64,
}
