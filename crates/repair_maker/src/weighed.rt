// The weights of the edges of a function, where they are asked for.
ghost use Rattle.std.specs.Prelude.{◌≡◌, IfOk, length};
ghost use Rattle.flow_model.specs.Sound.{AreWeights};
ghost use Rattle.repair_model.specs.Made.{weighed_edges};
ghost use Rattle.repair_maker.specs.Told.{edges_told};

use block_weights::{EdgeSamples, edge_weights};
use cfg_text::{Fun, Weight};
use refusal::NoMemory;
use repair_text::unknown_weights;
use std::alloc::Global;

/// The weight of each edge of a function, by the weights of its blocks: unknown where no edge
/// samples are given.
pub(crate) fn weighed(
    alloc: Global,
    fun: &Fun<'_>,
    edges: Option<&EdgeSamples>,
    weights: &[Weight],
) -> Result<Vec<Weight>, NoMemory>
    ensures told { IfOk result (λ made. made.items
        ≡ weighed_edges (edges_told edges.entry) fun.now.blocks fun.now.edges weights.now) }
    ensures small { IfOk result (λ made. AreWeights (length fun.now.edges) made.items) }
{
    match edges {
        Some(samples) => edge_weights(alloc, fun, samples, weights),
        None => unknown_weights(alloc, fun),
    }
}
