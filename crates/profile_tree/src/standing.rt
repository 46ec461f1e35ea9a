// The functions that stand in a profile, and their keys.
ghost use Rattle.std.specs.Prelude.{◌≡◌, ◌<◌, ◌≤◌, All, IfOk, filter, length, map, slice_index_or, slice_set, false, true};
ghost use Rattle.std.specs.List.{range_with_len};
ghost use Rattle.cold_model.specs.Cold.{stands_in};
ghost use Rattle.profile_tree.specs.Items.{AreMarked};
ghost use Rattle.profile_tree.specs.Numbers.{AreOf, numbers_said};
ghost use Rattle.profile_tree.specs.Said.{ways_said};
ghost use Rattle.profile_tree.specs.Standing.{first_ways, has_mark, is_counted, is_told, stands};

use crate::head::Head;
use crate::numbers::Numbers;
use key_types::{Key, KeyId, Keys, NameId, Names};
use profile_lists::Call;
use refusal::NoMemory;
use std::alloc::Global;

/// Those of the first `known` keys whose functions stand in the profile of these numbers, in their
/// order: each was entered, or one of its keys has a count or a target.
///
/// # Errors
/// `NoMemory`.
pub fn standing_keys(
    alloc: Global,
    numbers: &Numbers,
    known: u32,
    keys: &Keys,
    names: &Names,
) -> Result<Vec<KeyId>, NoMemory>
    requires numbers { AreOf (length names.now) keys.now numbers.now }
    requires known { known ≤ length keys.now }
    ensures ways { IfOk result (λ ids. ways_said names.now keys.now ids.items
        ≡ filter (stands_in (numbers_said names.now keys.now numbers.now))
        (first_ways names.now keys.now known)) }
    ensures given { IfOk result (λ ids. All (λ key. key.0 < length keys.now) ids.items) }
{
    names.each_once();
    let calls = numbers.calls();
    let heads = numbers.heads();
    let marks = standing(alloc, numbers.counts(), calls, heads, keys, names.len())?;
    marked(alloc, keys, known, &marks)
}

/// Of each of so many functions, whether it stands there.
fn standing(
    alloc: Global,
    counts: &[u64],
    calls: &[Call],
    heads: &[Head],
    keys: &Keys,
    names: u32,
) -> Result<Vec<bool>, NoMemory>
    requires roots { All (λ key. key.root.0 < names) keys.now }
    requires len { length counts.now ≡ length keys.now }
    requires calls { All (λ call. call.key.0 < length keys.now) calls.now }
    requires heads { All (λ head. head.name.0 < names) heads.now }
    ensures { IfOk result (λ marks.
        AreMarked names (stands keys.now counts.now calls.now heads.now) marks.items) }
{
    let mut marks = told(alloc, counts, calls, keys, names)?;
    for head in heads {
        if head.times > 0 {
            mark(&mut marks, head.name);
        }
    }
    Ok(marks)
}

/// Of each of so many functions, whether one of its keys has a count or a target.
fn told(
    alloc: Global,
    counts: &[u64],
    calls: &[Call],
    keys: &Keys,
    names: u32,
) -> Result<Vec<bool>, NoMemory>
    requires roots { All (λ key. key.root.0 < names) keys.now }
    requires len { length counts.now ≡ length keys.now }
    requires calls { All (λ call. call.key.0 < length keys.now) calls.now }
    ensures { IfOk result (λ marks.
        AreMarked names (is_told keys.now counts.now calls.now) marks.items) }
{
    let mut marks = counted(alloc, counts, keys, names)?;
    for call in calls {
        if call.times > 0 {
            mark(&mut marks, keys.get(call.key).root);
        }
    }
    Ok(marks)
}

/// Of each of so many functions, whether one of its keys has a count.
fn counted(alloc: Global, counts: &[u64], keys: &Keys, names: u32) -> Result<Vec<bool>, NoMemory>
    requires roots { All (λ key. key.root.0 < names) keys.now }
    requires len { length counts.now ≡ length keys.now }
    ensures { IfOk result (λ marks. AreMarked names (is_counted keys.now counts.now) marks.items) }
{
    let mut marks = vec![in alloc; false; names as usize]?;
    for id in 0..keys.len() {
        if counts[id as usize] > 0 {
            mark(&mut marks, keys.get(KeyId(id)).root);
        }
    }
    Ok(marks)
}

/// Marks a function.
fn mark(marks: &mut Vec<bool>, function: NameId)
    requires { function.0 < length marks.old.items }
    ensures { marks.new.items ≡ slice_set marks.old.items function.0 true }
{
    marks[function.0 as usize] = true;
}

/// Those of the first `known` keys whose functions have marks.
fn marked(alloc: Global, keys: &Keys, known: u32, marks: &[bool]) -> Result<Vec<KeyId>, NoMemory>
    requires known { known ≤ length keys.now }
    requires roots { All (λ key. key.root.0 < length marks.now) keys.now }
    ensures { IfOk result (λ ids. map (λ key. key.0) ids.items
        ≡ filter (has_mark keys.now marks.now) (range_with_len 0 known)) }
{
    let mut ids = Vec::new(alloc);
    for id in 0..known {
        if has_mark(keys.get(KeyId(id)), marks) {
            ids.push(KeyId(id))?;
        }
    }
    Ok(ids)
}

/// Whether the function of a key has a mark.
fn has_mark(key: &Key, marks: &[bool]) -> bool
    requires { key.now.root.0 < length marks.now }
    ensures { result ≡ slice_index_or marks.now key.now.root.0 false }
{
    marks[key.root.0 as usize]
}
