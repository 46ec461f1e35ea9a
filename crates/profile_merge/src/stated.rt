// Sums as heads that are stated.
ghost use Rattle.std.specs.Prelude.{◌≡◌, ◌≤◌, ◌^◌, IfOk, length};
ghost use Rattle.profile_merge.specs.Stated.{heads_at};

use crate::row::SumRow;
use key_types::NameId;
use profile_tree::Head;
use refusal::NoMemory;
use std::alloc::Global;

/// A head for each function that has a place.
pub(crate) fn heads_of(alloc: Global, row: &SumRow) -> Result<Vec<Head>, NoMemory>
    requires { length row.now ≤ 2 ^ 32 }
    ensures { IfOk result (λ heads. heads.items ≡ heads_at row.now) }
{
    let sums = row.as_slice();
    let mut heads = Vec::with_capacity(alloc, sums.len())?;
    for (id, times) in sums.iter().enumerate() {
        heads.push(Head {
            name: NameId(id as u32),
            times: *times,
        })?;
    }
    Ok(heads)
}
