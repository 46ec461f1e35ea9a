// Counts with prices, and cuts, accepted or not.
ghost use Rattle.std.specs.Prelude.{◌↔◌, IsTrue};
ghost use Rattle.flow_model.specs.Cut.{IsCut};
ghost use Rattle.flow_model.specs.Network.{Counts, arcs_of};
ghost use Rattle.flow_model.specs.Repair.{AreCounts, AreLeast, ConserveWithinBounds, FitCounts};
ghost use Rattle.flow_model.specs.Sides.{AreSides};
ghost use Rattle.flow_network.specs.Flow.{counts_of, holds, price_of};

use crate::spot::first_bad;
use flow_network::{Flow, Net, Nodes, Prices, cut_sums};

/// Whether no block and no edge breaks its test: counts conserve within bounds and the prices fit
/// them. Then no counts of any size that conserve within bounds cost less.
pub fn accepts(net: &Net, flow: &Flow, prices: &Prices) -> bool
    requires counted { AreCounts net.now (counts_of flow.now) }
    requires priced { AreSides net.now prices.now.ins prices.now.outs }
    ensures exact { IsTrue result ↔ (ConserveWithinBounds net.now (counts_of flow.now)
        × FitCounts (price_of prices.now) net.now (counts_of flow.now)) }
    ensures least { IsTrue result → AreLeast net.now (counts_of flow.now) }
{
    first_bad(net, flow, prices).is_none()
}

/// Whether a set of sides is a cut: more has to flow into it than can flow out. Then no counts
/// conserve within bounds.
pub fn accepts_cut(net: &Net, nodes: &Nodes) -> bool
    requires { AreSides net.now nodes.now.ins nodes.now.outs }
    ensures exact { IsTrue result ↔ IsCut (holds nodes.now) (arcs_of net.now) }
    ensures none { IsTrue result
        → (counts : Counts) → ConserveWithinBounds net.now counts → ⊥ }
{
    match cut_sums(net, nodes) {
        Some((least, most)) => most < least,
        None => false,
    }
}
