// Each direction of what is accepted.
ghost use Rattle.std.specs.Prelude.{IsTrue};
ghost use Rattle.flow_model.specs.Cut.{IsCut};
ghost use Rattle.flow_model.specs.Network.{arcs_of};
ghost use Rattle.flow_model.specs.Repair.{AreCounts, ConserveWithinBounds, FitCounts};
ghost use Rattle.flow_model.specs.Sides.{AreSides};
ghost use Rattle.flow_network.specs.Flow.{counts_of, holds, price_of};

use dual_check::{accepts, accepts_cut};
use flow_network::{Flow, Net, Nodes, Prices};

/// Prices that are accepted fit the counts.
pub fn accepted_prices_fit(net: &Net, flow: &Flow, prices: &Prices) -> bool
    requires counted { AreCounts net.now (counts_of flow.now) }
    requires priced { AreSides net.now prices.now.ins prices.now.outs }
    ensures { IsTrue result → FitCounts (price_of prices.now) net.now (counts_of flow.now) }
{
    accepts(net, flow, prices)
}

/// Prices that fit counts that conserve within bounds are accepted.
pub fn accepts_fitting_prices(net: &Net, flow: &Flow, prices: &Prices) -> bool
    requires counted { AreCounts net.now (counts_of flow.now) }
    requires priced { AreSides net.now prices.now.ins prices.now.outs }
    requires conserve { ConserveWithinBounds net.now (counts_of flow.now) }
    requires fit { FitCounts (price_of prices.now) net.now (counts_of flow.now) }
    ensures { IsTrue result }
{
    accepts(net, flow, prices)
}

/// What is accepted as a cut is one.
pub fn is_a_cut(net: &Net, nodes: &Nodes) -> bool
    requires { AreSides net.now nodes.now.ins nodes.now.outs }
    ensures { IsTrue result → IsCut (holds nodes.now) (arcs_of net.now) }
{
    accepts_cut(net, nodes)
}

/// Each cut is accepted.
pub fn accepts_a_cut(net: &Net, nodes: &Nodes) -> bool
    requires sides { AreSides net.now nodes.now.ins nodes.now.outs }
    requires cut { IsCut (holds nodes.now) (arcs_of net.now) }
    ensures { IsTrue result }
{
    accepts_cut(net, nodes)
}
