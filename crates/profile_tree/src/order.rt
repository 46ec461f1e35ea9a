// Functions in two orders.
ghost use Rattle.std.specs.Prelude.{◌≡◌, ◌≤◌, ◌<◌, ◌-◌, ◌^◌, IfOk, length, map, replicate};
ghost use Rattle.profile_lists.specs.Ranks.{AreRanks};

use key_types::Names;
use profile_lists::{Ranks, ranks_of};
use refusal::NoMemory;
use std::alloc::Global;

/// The ranks of functions: the greatest total first, and of equal totals the lesser name.
pub fn by_total(alloc: Global, names: &Names, totals: &[u64]) -> Result<Ranks, NoMemory>
    requires known { length totals.now ≤ length names.now }
    requires few { length totals.now < 2 ^ 32 }
    ensures { IfOk result (λ r.
        AreRanks names.now (map (λ t. 2 ^ 64 - 1 - t) totals.now) r.ranks r.ids) }
{
    let weights = weights_of(alloc, totals)?;
    ranks_of(alloc, names, &weights)
}

/// The ranks of functions by name alone.
pub fn by_name(alloc: Global, names: &Names) -> Result<Ranks, NoMemory>
    ensures { IfOk result (λ r. AreRanks names.now (replicate (length names.now) 0) r.ranks r.ids) }
{
    let weights = vec![in alloc; 0; names.len() as usize]?;
    ranks_of(alloc, names, &weights)
}

/// Weights that fall as totals rise.
fn weights_of(alloc: Global, totals: &[u64]) -> Result<Vec<u64>, NoMemory>
    ensures { IfOk result (λ weights. weights.items ≡ map (λ t. 2 ^ 64 - 1 - t) totals.now) }
{
    Ok(totals.iter().map(|total| u64::MAX - *total).collect(alloc)?)
}
