use cfg_text::Weight;
use flow_network::Solved;
use item_lists::Items;

/// What a text tells of a function of a block text.
#[derive(Debug, Drop)]
pub struct Repair {
    /// The number of its `# function` line, from 1. The lines of its blocks, its edges and its end
    /// follow that one without others between.
    pub line: u64,
    /// A weight for each block.
    pub weights: Items<Weight>,
    /// A weight for each edge, unknown where the line tells none; empty for a cut.
    pub edge_weights: Items<Weight>,
    /// Counts with prices, or a cut.
    pub solved: Solved,
    /// The first number of its last line: the cost of counts, or the lower sum of a cut.
    pub first: u128,
    /// The second: the upper sum of a cut, and 0 behind counts.
    pub second: u128,
}
