// The arcs of a function's network, in their order.
ghost use Rattle.std.specs.Prelude.{◌≡◌, ◌↔◌, IsTrue, ◌++◌, ◌∷◌, ◌<◌, ◌≤◌, [], length, IfOk, OnOk, if◌then◌else◌};
ghost use Rattle.std.specs.List.{All};
ghost use Rattle.block_model.specs.Limits.{max_blocks};
ghost use Rattle.flow_model.specs.Network as model;
ghost use Rattle.flow_model.specs.Prices.{IsBelow};
ghost use Rattle.flow_model.specs.Sound.{JoinsBlocks};

use crate::sides::{ROOT, in_side, out_side};
use crate::units::{lower_of_block, lower_of_edge, raise_of_block, raise_of_edge, weight_of};
use cfg_text::{Block, Edge, Weight};
use flow_model::Arc;
use refusal::NoMemory;
use std::alloc::Global;

/// The arcs in their order: the calls', the blocks', the edges', and those of the returns.
pub(crate) fn arcs_by(
    alloc: Global,
    blocks: &[Block],
    edges: &[Edge],
    weights: &[Weight],
    edge_weights: &[Weight],
) -> Result<Vec<Arc>, NoMemory>
    requires few { length blocks.now ≤ max_blocks }
    requires joined { All (JoinsBlocks (length blocks.now)) edges.now }
    requires weighed { length weights.now ≡ length blocks.now }
    requires edges_weighed { length edge_weights.now ≡ length edges.now }
    ensures { IfOk result (λ arcs. arcs.items
        ≡ model.arcs_of (model.network_of blocks.now edges.now weights.now edge_weights.now)) }
{
    let mut arcs = Vec::with_capacity(alloc, 1 + 2 * blocks.len() + edges.len())?;
    arcs.push(calls_arc(weights))?;
    push_blocks(&mut arcs, blocks, weights)?;
    push_edges(&mut arcs, edges, edge_weights)?;
    push_returns(&mut arcs, blocks)?;
    Ok(arcs)
}

/// Whether a count is below an upper bound, or there is none.
pub fn is_below(upper: Option<u64>, count: u64) -> bool
    ensures { IsTrue result ↔ IsBelow upper count }
{
    match upper {
        Some(upper) => count < upper,
        None => true,
    }
}

/// An arc that costs nothing and lets any count from `lower` on through.
pub fn free_arc(tail: u32, head: u32, lower: u64) -> Arc
    ensures { result ≡ model.free_arc tail head lower }
{
    Arc {
        tail,
        head,
        lower,
        upper: None,
        weight: 0,
        up: 0,
        down: 0,
    }
}

/// The arc of the calls. Who was sampled was called.
fn calls_arc(weights: &[Weight]) -> Arc
    ensures { result ≡ model.free_arc 0 1 (if model.some_sampled weights.now then 1 else 0) }
{
    free_arc(ROOT, in_side(0), u64::from(some_sampled(weights)))
}

/// Whether some block was sampled.
fn some_sampled(weights: &[Weight]) -> bool
    ensures { result ≡ model.some_sampled weights.now }
{
    for weight in weights {
        if weight_of(*weight) > 0 {
            return true;
        }
    }
    false
}

/// Appends the arcs of blocks, which are numbered from 0.
fn push_blocks(arcs: &mut Vec<Arc>, blocks: &[Block], weights: &[Weight]) -> Result<(), NoMemory>
    requires few { length blocks.now ≤ max_blocks }
    requires weighed { length weights.now ≡ length blocks.now }
    ensures { OnOk result
        (arcs.new.items ≡ arcs.old.items ++ model.block_arcs 0 blocks.now weights.now) }
{
    for (number, block) in blocks.iter().enumerate() {
        arcs.push(block_arc(number as u32, block, weights[number]))?;
    }
    Ok(())
}

/// A block's arc joins its two sides.
fn block_arc(number: u32, block: &Block, weight: Weight) -> Arc
    requires { number < max_blocks }
    ensures { result ≡ model.block_arc number block.now weight }
{
    Arc {
        tail: in_side(number),
        head: out_side(number),
        lower: block.bound.lower,
        upper: block.bound.upper,
        weight: weight_of(weight),
        up: raise_of_block(number, weight),
        down: lower_of_block(number, weight),
    }
}

/// Appends the arcs of edges.
fn push_edges(arcs: &mut Vec<Arc>, edges: &[Edge], weights: &[Weight]) -> Result<(), NoMemory>
    requires joined { All (JoinsBlocks max_blocks) edges.now }
    requires weighed { length weights.now ≡ length edges.now }
    ensures { OnOk result
        (arcs.new.items ≡ arcs.old.items ++ model.edge_arcs edges.now weights.now) }
{
    for (at, edge) in edges.iter().enumerate() {
        arcs.push(edge_arc(edge, weights[at]))?;
    }
    Ok(())
}

/// An edge's arc leads from where one block is left to where the other is entered.
fn edge_arc(edge: &Edge, weight: Weight) -> Arc
    requires { JoinsBlocks max_blocks edge.now }
    ensures { result ≡ model.edge_arc edge.now weight }
{
    Arc {
        tail: out_side(edge.from),
        head: in_side(edge.to),
        lower: edge.bound.lower,
        upper: edge.bound.upper,
        weight: weight_of(weight),
        up: raise_of_edge(weight),
        down: lower_of_edge(weight),
    }
}

/// Appends an arc to the root for each exit.
fn push_returns(arcs: &mut Vec<Arc>, blocks: &[Block]) -> Result<(), NoMemory>
    requires { length blocks.now ≤ max_blocks }
    ensures { OnOk result
        (arcs.new.items ≡ arcs.old.items ++ model.return_arcs 0 blocks.now) }
{
    for (number, block) in blocks.iter().enumerate() {
        push_return(arcs, number as u32, block)?;
    }
    Ok(())
}

/// Appends the arc of a block's returns, if it is an exit.
fn push_return(arcs: &mut Vec<Arc>, number: u32, block: &Block) -> Result<(), NoMemory>
    requires { number < max_blocks }
    ensures { OnOk result
        (arcs.new.items ≡ arcs.old.items
        ++ (if block.now.exit
        then model.free_arc (model.out_side number) 0 0 ∷ []
        else [])) }
{
    if block.exit {
        arcs.push(free_arc(out_side(number), ROOT, 0))?;
    }
    Ok(())
}
