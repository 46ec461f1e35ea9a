// What worked networks cost at least, by either solver.
ghost use Rattle.std.specs.Prelude.{◌≡◌};
ghost use Rattle.flow_model.specs.Sound.{AreWeights, IsSoundBound};

use crate::of_flow_scaling::scaled_cost;
use cfg_text::{Block, Bound, Edge, Fun, Weight};
use flow_network::{Net, Solved, cost, net_of};
use flow_solver::solve;
use item_lists::Items;
use refusal::NoMemory;
use std::alloc::Global;

/// No bound.
const FREE: Bound = Bound {
    lower: 0,
    upper: None,
};

/// At least so often.
fn lower_bound(least: u32) -> Bound
    ensures { IsSoundBound result }
{
    Bound {
        lower: u64::from(least),
        upper: None,
    }
}

/// At most so often.
fn upper_bound(most: Option<u32>) -> Bound
    ensures { IsSoundBound result }
{
    Bound {
        lower: 0,
        upper: match most {
            Some(most) => Some(u64::from(most)),
            None => None,
        },
    }
}

fn block(exit: bool, bound: Bound) -> Block
    ensures { result ≡ record { lo = 1; hi = 2; exit = exit; bound = bound } }
{
    Block {
        lo: 1,
        hi: 2,
        exit,
        bound,
    }
}

fn edge(from: u32, to: u32) -> Edge
    ensures { result ≡ record { from = from; to = to; bound = FREE } }
{
    Edge {
        from,
        to,
        bound: FREE,
    }
}

/// Weights that are known.
pub(crate) fn known(weights: [u32; 4]) -> [Weight; 4]
    ensures { AreWeights 4 result }
{
    let [a, b, c, d] = weights;
    [
        Weight::Known(u64::from(a)),
        Weight::Known(u64::from(b)),
        Weight::Known(u64::from(c)),
        Weight::Known(u64::from(d)),
    ]
}

/// Weights that are not.
pub(crate) fn unknown() -> [Weight; 4]
    ensures { AreWeights 4 result }
{
    [Weight::Unknown; 4]
}

/// A choice of two ways: from block 0, which runs at least so often, by block 1 or 2 to the exit,
/// block 3, which runs at most so often.
pub(crate) fn two_ways(
    alloc: Global,
    at_least: u32,
    at_most: Option<u32>,
    weights: &[Weight],
    edge_weights: &[Weight],
) -> Result<Net, NoMemory>
    requires weighed { AreWeights 4 weights.now }
    requires edges_weighed { AreWeights 4 edge_weights.now }
{
    let blocks = vec![in alloc;
        block(false, lower_bound(at_least)),
        block(false, FREE),
        block(false, FREE),
        block(true, upper_bound(at_most)),
    ]?;
    let edges = vec![in alloc; edge(0, 1), edge(0, 2), edge(1, 3), edge(2, 3)]?;
    let fun = Fun {
        name: b"f",
        blocks: Items::new(blocks),
        edges: Items::new(edges),
    };
    let net = net_of(alloc, &fun, weights, edge_weights)?;
    Ok(net)
}

/// What a network costs at least, or `None` for a cut.
fn least_cost(alloc: Global, net: &Net) -> Result<Option<u128>, NoMemory> {
    match solve(alloc, net)? {
        Solved::Flow(flow, _) => Ok(Some(cost(net, &flow))),
        Solved::Cut(_) => Ok(None),
    }
}

#[test]
fn least_costs_are_those_of_worked_networks(rt: HostRuntime) {
    let alloc = rt.alloc();
    let sampled = known([100, 60, 0, 100]);
    let never = known([0, 0, 0, 0]);
    let cases = [
        (0, None, sampled, unknown(), Some(400)),
        (0, None, sampled, never, Some(1000)),
        (0, Some(0), sampled, unknown(), None),
        (3, Some(3), never, unknown(), Some(186)),
        (5, None, unknown(), unknown(), Some(15)),
    ];
    for (at_least, at_most, weights, edge_weights, costs) in cases {
        let Ok(net) = two_ways(alloc, at_least, at_most, &weights, &edge_weights) else {
            panic!(rt; "no memory");
        };
        assert_eq!(rt; least_cost(alloc, &net), Ok(costs));
        assert_eq!(rt; scaled_cost(alloc, &net), Ok(costs));
    }
}

/// Block 0, an exit, and blocks 1 and 2 that go on at one another alone. Block 1 runs at least so
/// often, block 2 at most so often.
fn apart(
    alloc: Global,
    at_least: u32,
    at_most: Option<u32>,
    weights: &[Weight],
) -> Result<Net, NoMemory>
    requires { AreWeights 3 weights.now }
{
    let blocks = vec![in alloc;
        block(true, FREE),
        block(false, lower_bound(at_least)),
        block(false, upper_bound(at_most)),
    ]?;
    let fun = Fun {
        name: b"apart",
        blocks: Items::new(blocks),
        edges: Items::new(vec![in alloc; edge(1, 2), edge(2, 1)]?),
    };
    let net = net_of(alloc, &fun, weights, &[Weight::Unknown; 2])?;
    Ok(net)
}

/// Block 0, which ran five times, and block 1, which lead to one another; no block is an exit.
pub(crate) fn without_exit(alloc: Global) -> Result<Net, NoMemory> {
    let blocks = vec![in alloc; block(false, FREE), block(false, FREE)]?;
    let fun = Fun {
        name: b"loop",
        blocks: Items::new(blocks),
        edges: Items::new(vec![in alloc; edge(0, 1), edge(1, 0)]?),
    };
    let weights = [Weight::Known(5), Weight::Known(0)];
    let net = net_of(alloc, &fun, &weights, &[Weight::Unknown; 2])?;
    Ok(net)
}

fn three() -> [Weight; 3]
    ensures { AreWeights 3 result }
{
    [Weight::Known(7), Weight::Known(5), Weight::Known(3)]
}

#[test]
fn a_loop_apart_needs_no_exit(rt: HostRuntime) {
    let alloc = rt.alloc();
    let cases = [
        (0, None, Some(20)),
        (9, None, Some(100)),
        (0, Some(4), Some(30)),
        (0, Some(0), Some(160)),
        (5, Some(4), None),
    ];
    for (at_least, at_most, costs) in cases {
        let Ok(net) = apart(alloc, at_least, at_most, &three()) else {
            panic!(rt; "no memory");
        };
        assert_eq!(rt; least_cost(alloc, &net), Ok(costs));
        assert_eq!(rt; scaled_cost(alloc, &net), Ok(costs));
    }
}
