// What the checker says of counts with prices, and of cuts.
use crate::of_flow_solver::{known, two_ways, unknown, without_exit};
use dual_check::{accepts, accepts_cut};
use flow_network::{Flow, Net, Nodes, Prices};
use item_lists::Items;
use std::alloc::{AllocError, Global};
use std::test::Fail;

/// Counts of four blocks and four edges.
fn flow(alloc: Global, blocks: &[u64; 4], edges: &[u64; 4]) -> Result<Flow, AllocError> {
    Ok(Flow {
        blocks: Items::new(Vec::from_slice(alloc, blocks)?),
        edges: Items::new(Vec::from_slice(alloc, edges)?),
    })
}

/// Prices of the sides of four blocks.
fn prices(alloc: Global, ins: &[i64; 4], outs: &[i64; 4]) -> Result<Prices, AllocError> {
    Ok(Prices {
        ins: Items::new(Vec::from_slice(alloc, ins)?),
        outs: Items::new(Vec::from_slice(alloc, outs)?),
    })
}

/// A set of the sides of two blocks.
fn nodes(alloc: Global, root: bool, blocks: [bool; 2]) -> Result<Nodes, AllocError> {
    Ok(Nodes {
        root,
        ins: Items::new(Vec::from_slice(alloc, &blocks)?),
        outs: Items::new(Vec::from_slice(alloc, &blocks)?),
    })
}

/// Whether counts and prices are accepted, if there is one for each block, edge and side.
fn judged(net: &Net, flow: &Flow, prices: &Prices) -> Option<bool> {
    let blocks = net.block_count();
    if flow.blocks.as_slice().len() != blocks || flow.edges.as_slice().len() != net.edge_count() {
        return None;
    }
    if prices.ins.as_slice().len() != blocks || prices.outs.as_slice().len() != blocks {
        return None;
    }
    Some(accepts(net, flow, prices))
}

/// Whether a set of sides is accepted as a cut, if it speaks of each side.
fn judged_cut(net: &Net, nodes: &Nodes) -> Option<bool> {
    let blocks = net.block_count();
    if nodes.ins.as_slice().len() != blocks || nodes.outs.as_slice().len() != blocks {
        return None;
    }
    Some(accepts_cut(net, nodes))
}

/// Prices that fit the counts of cost 400.
const INS: [i64; 4] = [0, 0, 0, 10];

const OUTS: [i64; 4] = [0, 10, 10, 0];

#[test]
fn least_counts_are_accepted_with_prices_that_fit(rt: HostRuntime) -> Result<(), Fail> {
    let alloc = rt.alloc();
    let sampled = known([100, 60, 0, 100]);
    let Ok(net) = two_ways(alloc, 0, None, &sampled, &unknown()) else {
        panic!(rt; "no memory");
    };
    let cases = [
        // The least counts, of cost 400.
        ([100, 100, 0, 100], [100, 0, 100, 0], OUTS, true),
        // The same with a price that does not fit: 9 in place of 10.
        ([100, 100, 0, 100], [100, 0, 100, 0], [0, 9, 10, 0], false),
        // No prices.
        ([100, 100, 0, 100], [100, 0, 100, 0], [0; 4], false),
        // The other way, which costs more.
        ([100, 0, 100, 100], [0, 100, 0, 100], OUTS, false),
        // The weights, which do not conserve.
        ([100, 60, 0, 100], [60, 0, 60, 0], OUTS, false),
        // Nothing, though the function was called.
        ([0; 4], [0; 4], OUTS, false),
    ];
    for (blocks, edges, outs, answer) in cases {
        let counts = flow(alloc, &blocks, &edges)?;
        let priced = prices(alloc, &INS, &outs)?;
        assert_eq!(rt;
            judged(&net, &counts, &priced),
            Some(answer),
            "{blocks:?} {outs:?}"
        );
    }
    Ok(())
}

#[test]
fn a_loop_that_nothing_leaves_is_a_cut(rt: HostRuntime) -> Result<(), Fail> {
    let alloc = rt.alloc();
    let Ok(net) = without_exit(alloc) else {
        panic!(rt; "no memory");
    };
    let cases = [
        (false, [true, true], true),
        // The other sides, no sides, all sides, and one block alone.
        (true, [false, false], false),
        (false, [false, false], false),
        (true, [true, true], false),
        (false, [true, false], false),
    ];
    for (root, blocks, answer) in cases {
        let set = nodes(alloc, root, blocks)?;
        assert_eq!(rt; judged_cut(&net, &set), Some(answer), "{root:?} {blocks:?}");
    }
    Ok(())
}
