ghost use Rattle.std.specs.Prelude.{◌<◌, ◌^◌, length, IfOk};
ghost use Rattle.std.specs.List.{All, AllZip};
ghost use Rattle.block_model.specs.Limits.{bound_bits};
ghost use Rattle.flow_model.specs.Sound.{AreWeights};
ghost use Rattle.key_types.specs.Segments.{key_told};
ghost use Rattle.weight_model.specs.Blocks.{IsWeightOf};
ghost use Rattle.block_weights.specs.Counts.{count_in};

use crate::counted::SegmentCounts;
use cfg_text::{Fun, Weight};
use refusal::NoMemory;
use std::alloc::Global;

/// The weight of each block of a function: the largest count of the keys in it, and unknown where
/// there is none. Where all counts are below 2^44, so are the weights.
///
/// # Errors
/// `NoMemory`.
pub fn weights(
    alloc: Global,
    fun: &Fun<'_>,
    counted: &SegmentCounts<'_>,
) -> Result<Vec<Weight>, NoMemory>
    ensures told { IfOk result (λ made. AllZip
        (IsWeightOf (key_told counted.now.segments) (count_in counted.now.counts))
        fun.now.blocks made.items) }
    ensures small { IfOk result (λ made.
        All (λ count. count < 2 ^ bound_bits) counted.now.counts
        → AreWeights (length fun.now.blocks) made.items) }
{
    let mut made = Vec::with_capacity(alloc, fun.blocks.as_slice().len())?;
    let mut near = 0;
    for block in fun.blocks.as_slice() {
        let (weight, last) = counted.weight_of(block, near);
        made.push(weight)?;
        near = last;
    }
    Ok(made)
}
