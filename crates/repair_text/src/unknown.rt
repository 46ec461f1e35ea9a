// The weights of edges that no line tells.
ghost use Rattle.std.specs.Prelude.{◌≡◌, IfOk, length, map};
ghost use Rattle.block_model.specs.declared.parts.Weight.TheVariants.{Unknown};
ghost use Rattle.flow_model.specs.Sound.{AreWeights};

use cfg_text::{Fun, Weight};
use refusal::NoMemory;
use std::alloc::Global;

/// As many unknown weights as a function has edges.
pub fn unknown_weights(alloc: Global, fun: &Fun<'_>) -> Result<Vec<Weight>, NoMemory>
    ensures told { IfOk result (λ made. made.items ≡ map (λ edge. Unknown) fun.now.edges) }
    ensures small { IfOk result (λ made. AreWeights (length fun.now.edges) made.items) }
{
    let mut made = Vec::with_capacity(alloc, fun.edges.as_slice().len())?;
    for _edge in fun.edges.as_slice() {
        made.push(Weight::Unknown)?;
    }
    Ok(made)
}
