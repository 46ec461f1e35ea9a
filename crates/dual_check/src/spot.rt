// The first block or edge that breaks its test.
ghost use Rattle.std.specs.Prelude.{◌≡◌, ◌↔◌, None};
ghost use Rattle.flow_model.specs.Repair.{AreCounts, AreLeast, ConserveWithinBounds, FitCounts};
ghost use Rattle.flow_model.specs.Passing.{PassesBlock, PassesEdge};
ghost use Rattle.flow_model.specs.Sound.{IsNet};
ghost use Rattle.flow_model.specs.Sides.{AreSides};
ghost use Rattle.flow_network.specs.Flow.{counts_of, price_of};
ghost use Rattle.dual_check.specs.First.{IsFirst, IsFirstBad};

use crate::block::{block_passes, edge_passes};
use flow_network::{Flow, Net, Prices};

/// A block or an edge of a function, by its number from 0.
#[derive(Clone, Copy, Debug, PartialEq, Eq)]
pub enum Spot {
    Block(u32),
    Edge(u32),
}

/// The first block whose count or prices break its test; where none does, the first such edge.
///
/// A block's count is within its bounds. Edges lead to it as often as it runs, or at the entry at
/// most so often, and the rest are calls, of which there are enough; likewise edges lead on as
/// often, or at an exit at most so often. The prices fit the block's count, at the entry the calls
/// and at an exit the returns. An edge's count is within its bounds, and the prices fit it.
///
/// There is none exactly where the counts conserve within bounds and the prices fit them. Then no
/// counts of any size that conserve within bounds cost less.
pub fn first_bad(net: &Net, flow: &Flow, prices: &Prices) -> Option<Spot>
    requires counted { AreCounts net.now (counts_of flow.now) }
    requires priced { AreSides net.now prices.now.ins prices.now.outs }
    ensures first { IsFirstBad net.now (counts_of flow.now) (price_of prices.now) result }
    ensures none { result ≡ None ↔ (ConserveWithinBounds net.now (counts_of flow.now)
        × FitCounts (price_of prices.now) net.now (counts_of flow.now)) }
    ensures least { result ≡ None → AreLeast net.now (counts_of flow.now) }
{
    match first_bad_block(net, flow, prices) {
        Some(block) => Some(Spot::Block(block)),
        None => match first_bad_edge(net, flow, prices) {
            Some(edge) => Some(Spot::Edge(edge)),
            None => None,
        },
    }
}

/// The first block that breaks its test.
fn first_bad_block(net: &Net, flow: &Flow, prices: &Prices) -> Option<u32>
    requires { AreCounts net.now (counts_of flow.now) }
    ensures first { IsFirst (PassesBlock net.now (counts_of flow.now) (price_of prices.now))
        net.now.blocks flow.now.blocks result }
    ensures of_a_function { IsNet net.now }
{
    let counts = flow.blocks.as_slice();
    for (at, arc) in net.blocks().iter().enumerate() {
        if !block_passes(net, flow, prices, arc, counts[at]) {
            return Some(at as u32);
        }
    }
    None
}

/// The first edge that breaks its test.
fn first_bad_edge(net: &Net, flow: &Flow, prices: &Prices) -> Option<u32>
    requires { AreCounts net.now (counts_of flow.now) }
    ensures { IsFirst (PassesEdge (price_of prices.now)) net.now.edges flow.now.edges result }
{
    let counts = flow.edges.as_slice();
    for (at, arc) in net.edges().iter().enumerate() {
        if !edge_passes(prices, arc, counts[at]) {
            return Some(at as u32);
        }
    }
    None
}
