// A number for each key, or for each function.
ghost use Rattle.std.specs.Prelude.{◌≡◌, ◌<◌, ◌+◌, ◌^◌, ℕ, All, IfOk, length, slice_index, slice_set};
ghost use Rattle.profile_model.specs.Profile.{capped};
ghost use Rattle.profile_laws.specs.Once.{StandOnce};
ghost use Rattle.profile_tree.specs.Sums.{AreEach, count_stated, entries_of, root_total};

use crate::head::Head;
use crate::key_count::KeyCount;
use key_types::{KeyId, Keys, NameId};
use refusal::NoMemory;
use std::alloc::Global;

/// The count of each of `keys` keys: the one that is stated, or 0.
pub fn stated_of(alloc: Global, keys: u32, counts: &[KeyCount]) -> Result<Vec<u64>, NoMemory>
    requires given { All (λ count. count.key.0 < keys) counts.now }
    requires once { StandOnce (λ count. count.key.0) counts.now }
    ensures { IfOk result (λ stated. AreEach keys (count_stated counts.now) stated.items) }
{
    let mut stated = vec![in alloc; 0; keys as usize]?;
    for count in counts {
        stated[count.key.0 as usize] = count.times;
    }
    Ok(stated)
}

/// The total of each of `names` functions: the sum of the counts of its keys.
pub fn totals_of(
    alloc: Global,
    names: u32,
    keys: &Keys,
    counts: &[u64],
) -> Result<Vec<u64>, NoMemory>
    requires roots { All (λ key. key.root.0 < names) keys.now }
    requires len { length counts.now ≡ length keys.now }
    ensures { IfOk result (λ totals. AreEach names (root_total keys.now counts.now) totals.items) }
{
    let mut totals = vec![in alloc; 0; names as usize]?;
    for id in 0..keys.len() {
        let key = keys.get(KeyId(id));
        raise(&mut totals, key.root, counts[id as usize]);
    }
    Ok(totals)
}

/// Adds a count to the total of a function. A total stands still at its type's end.
fn raise(totals: &mut Vec<u64>, root: NameId, count: u64)
    requires { root.0 < length totals.old.items }
    ensures { totals.new.items ≡ slice_set totals.old.items root.0
        (capped (slice_index totals.old.items root.0 + count)) }
{
    let root = root.0 as usize;
    totals[root] = totals[root].saturating_add(count);
}

/// How often each of `names` functions was entered.
pub fn heads_of(alloc: Global, names: u32, heads: &[Head]) -> Result<Vec<u64>, NoMemory>
    requires given { All (λ head. head.name.0 < names) heads.now }
    requires fit { (name : ℕ) → entries_of heads.now name < 2 ^ 64 }
    ensures { IfOk result (λ sums. AreEach names (entries_of heads.now) sums.items) }
{
    let mut sums = vec![in alloc; 0; names as usize]?;
    for head in heads {
        sums[head.name.0 as usize] += head.times;
    }
    Ok(sums)
}
