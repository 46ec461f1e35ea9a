ghost use Rattle.std.specs.Prelude.{◌≡◌, ◌<◌, ◌≤◌, ◌^◌, length, map, IfOk};
ghost use Rattle.flow_model.specs.Network.{weight_of as number_of};
ghost use Rattle.flow_model.specs.Sound.{AreWeights};
ghost use Rattle.profile_model.specs.Steps.{hits_by};
ghost use Rattle.weight_model.specs.Edges.{known_block, taken, weight_by};

use crate::samples::EdgeSamples;
use cfg_text::{Block, Edge, Fun, Weight};
use refusal::NoMemory;
use std::alloc::Global;

/// The weight of each edge of a function, known where both its blocks are: how often branches lead
/// from the one to the start of the other, and where the one ends there, how often ranges ran on.
/// Each is below 2^44.
///
/// `weights` are those of the blocks, in their order. A block behind its end has none.
///
/// # Errors
/// `NoMemory`.
pub fn edge_weights(
    alloc: Global,
    fun: &Fun<'_>,
    samples: &EdgeSamples,
    weights: &[Weight],
) -> Result<Vec<Weight>, NoMemory>
    ensures told { IfOk result (λ made. made.items ≡ map
        (weight_by (taken samples.now.branches) (hits_by samples.now.passing)
        fun.now.blocks weights.now)
        fun.now.edges) }
    ensures small { IfOk result (λ made. AreWeights (length fun.now.edges) made.items) }
{
    let mut made = Vec::with_capacity(alloc, fun.edges.as_slice().len())?;
    let mut near = 0;
    for edge in fun.edges.as_slice() {
        let (weight, place) = weight_of(edge, fun.blocks.as_slice(), samples, weights, near);
        made.push(weight)?;
        near = place;
    }
    Ok(made)
}

/// The weight of an edge, and the place of its branches, which is looked for around `near` first.
fn weight_of(
    edge: &Edge,
    blocks: &[Block],
    samples: &EdgeSamples,
    weights: &[Weight],
    near: usize,
) -> (Weight, usize)
    requires { near ≤ length samples.now.branches }
    ensures told { result.0 ≡ weight_by (taken samples.now.branches) (hits_by samples.now.passing)
        blocks.now weights.now edge.now }
    ensures small { number_of result.0 < 2 ^ 44 }
    ensures near { result.1 ≤ length samples.now.branches }
{
    let from = known_block(blocks, weights, edge.from);
    let to = known_block(blocks, weights, edge.to);
    match (from, to) {
        (Some(from), Some(to)) => {
            let (times, place) = samples.went_over(&from, &to, near);
            (Weight::Known(times), place)
        }
        _ => (Weight::Unknown, near),
    }
}

/// The block of a number, if it has a known weight.
fn known_block(blocks: &[Block], weights: &[Weight], number: u32) -> Option<Block>
    ensures { result ≡ known_block blocks.now weights.now number }
{
    match weights.get(number as usize) {
        Some(Weight::Known(_)) => blocks.get(number as usize).copied(),
        _ => None,
    }
}
