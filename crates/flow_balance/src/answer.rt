// Answers made of counts, prices and marks.
ghost use Rattle.std.specs.Prelude.{◌≡◌, ◌+◌, ◌*◌, ◌^◌, ◌<◌, ◌≤◌, length, ◌-ℤ◌, IfOk};
ghost use Rattle.flow_model.specs.Network.{arcs_of};
ghost use Rattle.residual_model.specs.Loads.{own_counts};
ghost use Rattle.flow_network.specs.Flow.{counts_of};
ghost use Rattle.path_search.specs.Ground.{AreSmall, price_at, sides_of};
ghost use Rattle.path_search.specs.Search.{is_reached};
ghost use Rattle.flow_balance.specs.Answer.{IsEveryOther, TellPrices, TellsReached};

use flow_network::{Flow, Net, Nodes, Prices};
use item_lists::Items;
use reached_sides::Marks;
use refusal::NoMemory;
use std::alloc::Global;

/// The counts of blocks and edges among those of all arcs.
pub fn flow_of(alloc: Global, net: &Net, counts: &[u64]) -> Result<Flow, NoMemory>
    requires { length counts.now ≡ length (arcs_of net.now) }
    ensures { IfOk result (λ flow. counts_of flow ≡ own_counts net.now counts.now) }
{
    let own = &counts[1..];
    let blocks = Vec::from_slice(alloc, &own[..net.block_count()])?;
    let rest = &own[net.block_count()..];
    let edges = Vec::from_slice(alloc, &rest[..net.edge_count()])?;
    Ok(Flow {
        blocks: Items::new(blocks),
        edges: Items::new(edges),
    })
}

/// The prices of the blocks' sides, above that of the root.
// Why: A node that lacks counts keeps its price, 0 in a plain run, so a moved price is the
// difference of what two ways cost, 40 a step, and leaves no type.
pub fn prices_of(alloc: Global, net: &Net, prices: &[i64]) -> Result<Prices, NoMemory>
    requires priced { length prices.now ≡ sides_of net.now }
    requires small { AreSmall prices.now }
    ensures { IfOk result (λ told. TellPrices net.now prices.now told) }
{
    let ins = above_root(alloc, prices, 1, net.block_count())?;
    let outs = above_root(alloc, prices, 2, net.block_count())?;
    Ok(Prices {
        ins: Items::new(ins),
        outs: Items::new(outs),
    })
}

/// The prices above that of the root, of so many sides, each second one.
fn above_root(
    alloc: Global,
    prices: &[i64],
    first: usize,
    blocks: usize,
) -> Result<Vec<i64>, NoMemory>
    requires inside { first + 2 * blocks ≤ length prices.now + 1 }
    requires few { first + 2 * blocks < 2 ^ 20 }
    requires some { 0 < first }
    requires small { AreSmall prices.now }
    ensures { IfOk result (λ list. IsEveryOther
        (λ side. price_at prices.now side -ℤ price_at prices.now 0) first blocks list.items) }
{
    let mut list = Vec::with_capacity(alloc, blocks)?;
    for block in 0..blocks {
        list.push(prices[first + 2 * block] - prices[0])?;
    }
    Ok(list)
}

/// The set of the sides that are marked.
pub fn reached(alloc: Global, net: &Net, marks: &Marks) -> Result<Nodes, NoMemory>
    requires { length marks.now ≡ sides_of net.now }
    ensures { IfOk result (λ nodes. TellsReached net.now marks.now nodes) }
{
    let ins = members(alloc, marks, 1, net.block_count())?;
    let outs = members(alloc, marks, 2, net.block_count())?;
    Ok(Nodes {
        root: marks.get(0).is_some(),
        ins: Items::new(ins),
        outs: Items::new(outs),
    })
}

/// Whether so many sides are marked, each second one.
fn members(alloc: Global, marks: &Marks, first: usize, blocks: usize) -> Result<Vec<bool>, NoMemory>
    requires inside { first + 2 * blocks ≤ length marks.now + 1 }
    requires few { first + 2 * blocks < 2 ^ 20 }
    requires some { 0 < first }
    ensures { IfOk result (λ list. IsEveryOther (is_reached marks.now) first blocks list.items) }
{
    let mut list = Vec::new(alloc);
    for block in 0..blocks {
        let side = (first + 2 * block) as u32;
        list.push(marks.get(side).is_some())?;
    }
    Ok(list)
}
