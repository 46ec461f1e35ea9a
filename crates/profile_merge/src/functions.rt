// How many functions a profile has lines of.
ghost use Rattle.std.specs.Prelude.{◌≡◌, ◌<◌, ◌==◌, IfOk, OnOk, length, slice_index};
ghost use Rattle.profile_text.specs.Numbers.{HasKey};
ghost use Rattle.profile_merge.specs.Functions.{CountsRoot, HaveKeys, different, roots};
ghost use Rattle.profile_merge.specs.Row.{IsWithSum};

use crate::row::SumRow;
use key_types::{Keys, NameId};
use profile_text::{Item, root_of};
use refusal::NoMemory;
use std::alloc::Global;

/// How many functions these numbers are of, zeros aside: those that were entered, and those of keys
/// with a count or a target.
pub(crate) fn functions_of(alloc: Global, items: &[Item], keys: &Keys) -> Result<usize, NoMemory>
    requires { HaveKeys (length keys.now) items.now }
    ensures { IfOk result (λ functions. functions ≡ different (roots keys.now items.now)) }
{
    let mut seen = SumRow::new(alloc)?;
    let mut functions = 0;
    for item in items {
        functions += count_root(&mut seen, item, keys)?;
    }
    Ok(functions)
}

/// 1 for the first number above 0 of a function, which is marked then, and else 0.
fn count_root(seen: &mut SumRow, item: &Item, keys: &Keys) -> Result<usize, NoMemory>
    requires { HasKey (length keys.now) item.now.what }
    ensures { IfOk result (λ more. CountsRoot keys.now item.now more seen.old seen.new) }
{
    if item.times == 0 {
        return Ok(0);
    }
    let root = root_of(item.what, keys);
    if is_first(seen, root)? { Ok(1) } else { Ok(0) }
}

/// Marks a function, and answers whether it had no mark.
fn is_first(seen: &mut SumRow, function: NameId) -> Result<bool, NoMemory>
    ensures first { IfOk result (λ first. first ≡ (slice_index seen.old function.0 == 0)) }
    ensures marked { OnOk result (IsWithSum seen.old function.0 1 seen.new) }
{
    seen.reach(function.0)?;
    let is_first = seen.sum(function.0) == 0;
    seen.set(function.0, 1);
    Ok(is_first)
}
