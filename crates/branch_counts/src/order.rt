ghost use Rattle.std.specs.Prelude.{IsPermutation, IsSorted, OnOk};
ghost use Rattle.branch_counts.specs.Pair.{pair_cmp};

use sample_model::Pair;
use std::alloc::AllocError;

/// Puts pairs into their order.
pub(crate) fn sort_pairs(pairs: &mut Vec<Pair>) -> Result<(), AllocError>
    ensures same { OnOk result (IsPermutation pairs.old.items pairs.new.items) }
    ensures sorted { OnOk result (IsSorted pair_cmp pairs.new.items) }
{
    pairs.sort()
}
