ghost use Rattle.std.specs.Prelude.{◌≡◌, ◌++◌, flat_map, IfOk, OnOk};
ghost use Rattle.profile_model.specs.Hits.{AreRanges};
ghost use Rattle.block_weights.specs.Passing.{behind_first};

use range_counts::RanRange;
use refusal::NoMemory;
use std::alloc::Global;

/// What of some ranges lies behind their first addresses: there they ran on from an address to the
/// next.
pub(crate) fn behind_firsts(alloc: Global, ran: &[RanRange]) -> Result<Vec<RanRange>, NoMemory>
    ensures ranges { IfOk result (λ made. AreRanges made.items) }
    ensures same { IfOk result (λ made. made.items ≡ flat_map behind_first ran.now) }
{
    let mut made = Vec::new(alloc);
    for range in ran {
        push_behind_first(&mut made, range)?;
    }
    Ok(made)
}

/// Appends what of a range lies behind its first address.
fn push_behind_first(made: &mut Vec<RanRange>, range: &RanRange) -> Result<(), NoMemory>
    ensures { OnOk result (made.new.items ≡ made.old.items ++ behind_first range.now) }
{
    let RanRange { lo, hi, times } = *range;
    if lo < hi {
        let lo = lo + 1;
        made.push(RanRange { lo, hi, times })?;
    }
    Ok(())
}
