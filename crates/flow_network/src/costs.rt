// What counts cost.
ghost use Rattle.std.specs.Prelude.{◌≡◌, ◌*◌, ◌^◌, ◌<◌, ◌≤◌, length};
ghost use Rattle.std.specs.List.{All};
ghost use Rattle.flow_model.specs.Circulation.{cost_on as cost_at, total_cost};
ghost use Rattle.flow_model.specs.Repair.{AreCounts, cost_of};
ghost use Rattle.flow_network.specs.Cost.{IsCheap};
ghost use Rattle.flow_network.specs.Flow.{counts_of};

use crate::flow::Flow;
use crate::net::Net;
use flow_model::Arc;

/// What the counts of a flow cost. It has one for each block and each edge of the network.
pub fn cost(net: &Net, flow: &Flow) -> u128
    requires { AreCounts net.now (counts_of flow.now) }
    ensures { result ≡ cost_of net.now (counts_of flow.now) }
{
    let blocks = cost_over(net.blocks(), flow.blocks.as_slice());
    let edges = cost_over(net.edges(), flow.edges.as_slice());
    blocks + edges
}

/// What counts on arcs cost together.
fn cost_over(arcs: &[Arc], counts: &[u64]) -> u128
    requires each { length counts.now ≡ length arcs.now }
    requires few { length arcs.now < 2 ^ 19 }
    requires cheap { All IsCheap arcs.now }
    ensures value { result ≡ total_cost arcs.now counts.now }
    ensures small { result ≤ length arcs.now * 2 ^ 70 }
{
    let mut sum: u128 = 0;
    for (at, arc) in arcs.iter().enumerate() {
        sum += cost_on(arc, counts[at]);
    }
    sum
}

/// What a count on an arc costs.
fn cost_on(arc: &Arc, count: u64) -> u128
    requires { IsCheap arc.now }
    ensures value { result ≡ cost_at arc.now count }
    ensures small { result ≤ 2 ^ 70 }
{
    let above = count.saturating_sub(arc.weight);
    let below = arc.weight.saturating_sub(count);
    u128::from(arc.up) * u128::from(above) + u128::from(arc.down) * u128::from(below)
}
