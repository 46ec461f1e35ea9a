// What edges take to a side and from it, by the places of their arcs.
ghost use Rattle.std.specs.Prelude.{◌≡◌, nat_le};
ghost use Rattle.std.specs.List.{list_any, sum_by};
ghost use Rattle.flow_network.specs.Flow.{counts_of};
ghost use Rattle.dual_check.specs.Places.{edge_at, first_return};

use flow_network::{Flow, Net};

/// The sum of the counts of those edges whose arcs have these places.
pub(crate) fn edge_sum(net: &Net, flow: &Flow, places: &[u32]) -> u128
    ensures { result ≡ sum_by (edge_at net.now (counts_of flow.now)) places.now }
{
    let mut sum: u128 = 0;
    for place in places {
        sum += u128::from(edge_count(net, flow, *place));
    }
    sum
}

/// The count of the edge whose arc has this place; another arc counts nothing.
fn edge_count(net: &Net, flow: &Flow, place: u32) -> u64
    ensures { result ≡ edge_at net.now (counts_of flow.now) place }
{
    let first = 1 + net.block_count();
    let place = place as usize;
    if place < first {
        return 0;
    }
    match flow.edges.as_slice().get(place - first) {
        Some(count) => *count,
        None => 0,
    }
}

/// Whether one of the arcs that have these places is that of returns.
pub(crate) fn has_return(net: &Net, places: &[u32]) -> bool
    ensures { result ≡ list_any (nat_le (first_return net.now)) places.now }
{
    let first = 1 + net.block_count() + net.edge_count();
    for place in places {
        if first <= *place as usize {
            return true;
        }
    }
    false
}
