// The counts to start from, and the excess that they leave.
ghost use Rattle.std.specs.Prelude.{◌≡◌, length, pos, replicate};
ghost use Rattle.flow_model.specs.Network.{arcs_of};
ghost use Rattle.path_search.specs.Ground.{sides_of};
ghost use Rattle.residual_model.specs.Residual as model;
ghost use Rattle.flow_balance.specs.State.{IsStart};

use crate::excess::transfer;
use flow_network::{Arc, Net};

/// Sets each count to its weight moved into its bounds, and each excess to what these counts bring
/// to the side beyond what they take from it.
pub fn start(net: &Net, counts: &mut [u64], excess: &mut [i64])
    requires counts { counts.old ≡ replicate (length (arcs_of net.now)) 0 }
    requires excess { excess.old ≡ replicate (sides_of net.now) (pos 0) }
    ensures { IsStart net.now counts.new excess.new }
{
    let arcs = net.arcs();
    for (place, arc) in arcs.iter().enumerate() {
        let count = starting_count(arc);
        counts[place] = count;
        transfer(excess, arc.tail, arc.head, count);
    }
}

/// The weight of an arc, moved into its bounds.
pub fn starting_count(arc: &Arc) -> u64
    ensures { result ≡ model.starting arc.now }
{
    let most = arc.weight.max(arc.lower);
    match arc.upper {
        Some(upper) => most.min(upper),
        None => most,
    }
}
