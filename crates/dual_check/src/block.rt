// The test of a block.
ghost use Rattle.std.specs.Prelude.{◌≡◌, ◌*◌, ◌-◌, ◌≤◌, ◌↔◌, IsTrue, length, nat_le, if◌then◌else◌, Some, None};
ghost use Rattle.flow_model.specs.Repair.{AreCounts};
ghost use Rattle.flow_model.specs.Passing.{IsEntered, IsLeft, PassesBlock, PassesEdge};
ghost use Rattle.flow_model.specs.Passing.{came_by_edges, is_exit, went_by_edges};
ghost use Rattle.flow_network.specs.Flow.{counts_of, price_of};

use crate::fits::{fits, is_within};
use crate::sums::{edge_sum, has_return};
use flow_network::{Arc, Flow, Net, Prices, ROOT, free_arc};

/// Whether a block passes, of which this is the arc and the count.
pub(crate) fn block_passes(net: &Net, flow: &Flow, prices: &Prices, arc: &Arc, count: u64) -> bool
    requires counted { AreCounts net.now (counts_of flow.now) }
    requires entered { arc.now.tail ≤ 2 * length net.now.blocks }
    requires left { arc.now.head ≤ 2 * length net.now.blocks }
    ensures { IsTrue result
        ↔ PassesBlock net.now (counts_of flow.now) (price_of prices.now) arc.now count }
{
    is_within(arc, count)
        && fits(prices, arc, count)
        && is_entered(net, flow, prices, arc, count)
        && is_left(net, flow, prices, arc, count)
}

/// Whether an edge passes, of which this is the arc and the count.
pub(crate) fn edge_passes(prices: &Prices, arc: &Arc, count: u64) -> bool
    ensures { IsTrue result ↔ PassesEdge (price_of prices.now) arc.now count }
{
    is_within(arc, count) && fits(prices, arc, count)
}

/// Whether the block is entered as often as it runs.
fn is_entered(net: &Net, flow: &Flow, prices: &Prices, arc: &Arc, count: u64) -> bool
    requires counted { AreCounts net.now (counts_of flow.now) }
    requires side { arc.now.tail ≤ 2 * length net.now.blocks }
    ensures { IsTrue result
        ↔ IsEntered net.now (counts_of flow.now) (price_of prices.now) arc.now count }
{
    let came = came(net, flow, arc);
    let calls = &net.arcs()[0];
    if arc.tail != calls.head {
        return came == u128::from(count);
    }
    match rest(count, came) {
        Some(called) => called >= calls.lower && fits(prices, calls, called),
        None => false,
    }
}

/// Whether the block is left as often as it runs.
fn is_left(net: &Net, flow: &Flow, prices: &Prices, arc: &Arc, count: u64) -> bool
    requires counted { AreCounts net.now (counts_of flow.now) }
    requires side { arc.now.head ≤ 2 * length net.now.blocks }
    ensures { IsTrue result
        ↔ IsLeft net.now (counts_of flow.now) (price_of prices.now) arc.now count }
{
    let went = went(net, flow, arc);
    if !is_exit_arc(net, arc) {
        return went == u128::from(count);
    }
    match rest(count, went) {
        Some(returned) => fits(prices, &free_arc(arc.head, ROOT, 0), returned),
        None => false,
    }
}

/// How often edges lead to where the block is entered.
fn came(net: &Net, flow: &Flow, arc: &Arc) -> u128
    requires counted { AreCounts net.now (counts_of flow.now) }
    requires side { arc.now.tail ≤ 2 * length net.now.blocks }
    ensures { result ≡ came_by_edges net.now (counts_of flow.now) arc.now }
{
    edge_sum(net, flow, net.entering(arc.tail))
}

/// How often edges lead from where the block is left.
fn went(net: &Net, flow: &Flow, arc: &Arc) -> u128
    requires counted { AreCounts net.now (counts_of flow.now) }
    requires side { arc.now.head ≤ 2 * length net.now.blocks }
    ensures { result ≡ went_by_edges net.now (counts_of flow.now) arc.now }
{
    edge_sum(net, flow, net.leaving(arc.head))
}

/// Whether the function returns from the block.
fn is_exit_arc(net: &Net, arc: &Arc) -> bool
    requires { arc.now.head ≤ 2 * length net.now.blocks }
    ensures { result ≡ is_exit net.now arc.now }
{
    has_return(net, net.leaving(arc.head))
}

/// What is left of a count beside a part of it, if that is no more than the count.
fn rest(count: u64, part: u128) -> Option<u64>
    ensures { result ≡ (if nat_le part count then Some (count - part) else None) }
{
    if part <= u128::from(count) {
        Some(count - part as u64)
    } else {
        None
    }
}
