// The two sums of a cut.
ghost use Rattle.std.specs.Prelude.{◌≡◌, if◌then◌else◌, Some};
ghost use Rattle.std.specs.Option.{option_map};
ghost use Rattle.flow_model.specs.Cut.{enters, least_in, leaves, most_out};
ghost use Rattle.flow_model.specs.Network.{arcs_of};
ghost use Rattle.flow_network.specs.Flow.{holds};

use crate::flow::Nodes;
use crate::net::Net;
use flow_model::Arc;

/// What has to flow into a set of sides, and what can flow out: the sum of the lower bounds of the
/// arcs that enter it, and that of the upper bounds of the arcs that leave it. `None` exactly where
/// an arc without an upper bound leaves.
///
/// The set is a cut where the first sum is above the second.
pub fn cut_sums(net: &Net, nodes: &Nodes) -> Option<(u128, u128)>
    ensures { result ≡ option_map (λ most. (least_in (holds nodes.now) (arcs_of net.now), most))
        (most_out (holds nodes.now) (arcs_of net.now)) }
{
    let mut least: u128 = 0;
    let mut most: u128 = 0;
    for arc in net.arcs() {
        least += u128::from(least_into(nodes, arc));
        most += u128::from(most_out_of(nodes, arc)?);
    }
    Some((least, most))
}

/// What an arc has to bring into the set.
fn least_into(nodes: &Nodes, arc: &Arc) -> u64
    ensures { result ≡ (if enters (holds nodes.now) arc.now then arc.now.lower else 0) }
{
    if nodes.contains(arc.head) && !nodes.contains(arc.tail) {
        arc.lower
    } else {
        0
    }
}

/// What an arc can take out of the set, if that is bounded.
fn most_out_of(nodes: &Nodes, arc: &Arc) -> Option<u64>
    ensures { result ≡ (if leaves (holds nodes.now) arc.now then arc.now.upper else Some 0) }
{
    if nodes.contains(arc.tail) && !nodes.contains(arc.head) {
        arc.upper
    } else {
        Some(0)
    }
}
