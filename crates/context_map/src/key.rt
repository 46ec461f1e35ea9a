ghost use Rattle.std.specs.Prelude.{◌≡◌, ◌⊎◌, ◌≤◌, ◌<◌, ◌-◌, ◌^◌, ℕ, Some, length, slice_get, IfOk};
ghost use Rattle.chain_model.specs.Places as places;
ghost use Rattle.key_types.specs.Segments.{Kept};
ghost use Rattle.row_table.specs.declared.row_data.RowData.{RowData};
ghost use Rattle.context_map.specs.Parts.{factor_of, line_and_disc};

use crate::named::NamedPath;
use crate::offset::{kept, line_offset};
use crate::rules::Rules;
use item_lists::Items;
use key_types::{Key, KeyId, Keys, split};
use refusal::NoMemory;
use row_table::RowData;
use std::alloc::Global;

/// The number of the key that names and a row have.
///
/// # Errors
/// `NoMemory`, also for more keys than there may be.
pub(crate) fn key_of(
    alloc: Global,
    keys: &mut Keys,
    named: &NamedPath,
    row: RowData,
    rules: Rules,
) -> Result<KeyId, NoMemory>
    requires { rules.most < 2 ^ 32 - 1 }
    ensures number { IfOk result (λ id. slice_get keys.new id.0 ≡ Some (places.key rules.base
        named.now.root named.now.calls.items named.now.start (line_and_disc row))) }
    ensures kept { Kept keys.old keys.new }
    ensures new { IfOk result (λ id. (n : ℕ) → n < length keys.new
        → n < length keys.old ⊎ n ≡ id.0) }
    ensures room { length keys.old ≤ rules.most → length keys.new ≤ rules.most }
{
    if keys.len() >= rules.most {
        return Err(NoMemory);
    }
    keys.add(Key {
        root: named.root,
        calls: Items::new(Vec::from_slice(alloc, &named.calls)?),
        offset: line_offset(named.start, u64::from(row.line)),
        disc: kept(rules.base, row.disc),
    })
}

/// How often the code of a row was copied: 1 where that is not asked.
#[tactic(auto, unfolding(key_types::specs::Discriminators::split))]
pub(crate) fn factor(base: bool, row: RowData) -> u64
    ensures { result ≡ factor_of base (Some (line_and_disc row)) }
{
    if base {
        u64::from(split(row.disc).1)
    } else {
        1
    }
}
