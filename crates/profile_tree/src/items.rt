// The ways that lead to a line, with the ranks of their functions.
ghost use Rattle.std.specs.Prelude.{◌≡◌, ◌<◌, ◌++◌, ◌||◌, [], false, All, IfOk, IsPermutation, OnOk, filter, length, map, slice_index_or};
ghost use Rattle.std.specs.List.{AllByRecursion, range_with_len};
ghost use Rattle.profile_tree.specs.Items.{AreMarked, entered, has_count, is_caller, is_marked, is_written, of_count, ranked, ranked_source, sources, told_item};
ghost use Rattle.profile_tree.specs.Known.{HasNames, IsGiven};
ghost use Rattle.profile_tree.specs.Steps.{at_function, frame_step, steps_at, steps_of};

use crate::head::Head;
use crate::numbers::Numbers;
use key_types::{Frame, Key, KeyId, Keys, NameId};
use profile_lists::{Call, Item, Kind, Step, sort_items};
use refusal::NoMemory;
use std::alloc::{AllocError, Global};

/// Ranks of functions: by total, and by name alone.
#[derive(Clone, Copy)]
pub struct RankedBy<'r> {
    pub total: &'r [u32],
    pub name: &'r [u32],
}

/// A key that has a line, with the rank of its function.
#[derive(Clone, Copy, Debug, PartialEq, Eq, PartialOrd, Ord)]
pub struct Written {
    pub rank: u32,
    pub id: u32,
}

/// An item for each key that has a count or a target or is one of `besides`, and for each function
/// that was entered.
///
/// Keys go function by function, so that ways that are compared lie together in memory.
// Why: Sorted are the ways of keys with a count, of calls and of entered functions; a called key
// only where it has no count.
pub fn items_of(
    alloc: Global,
    keys: &Keys,
    numbers: &Numbers,
    besides: &[KeyId],
    ranks: &RankedBy,
) -> Result<Vec<Item>, NoMemory>
    requires names { All (HasNames (length ranks.now.total.now)) keys.now }
    requires callees { All (HasNames (length ranks.now.name.now)) keys.now }
    requires calls { All (IsGiven (length keys.now) (length ranks.now.name.now)) numbers.now.calls }
    requires besides { All (λ key. key.0 < length keys.now) besides.now }
    requires heads { All (λ head. head.name.0 < length ranks.now.total.now) numbers.now.heads }
    requires len { length numbers.now.counts ≡ length keys.now }
    ensures { IfOk result (λ items. IsPermutation (map told_item items.items)
        (map (ranked_source ranks.now.total.now ranks.now.name.now)
        (sources keys.now numbers.now.counts numbers.now.calls besides.now numbers.now.heads))) }
{
    let written = written_of(alloc, keys, numbers, besides, ranks)?;
    let mut items = Vec::new(alloc);
    push_written(alloc, &mut items, keys, numbers.counts(), &written, ranks)?;
    push_entered(alloc, &mut items, numbers.heads(), ranks)?;
    Ok(items)
}

/// The keys that have a line, by the ranks of their functions.
fn written_of(
    alloc: Global,
    keys: &Keys,
    numbers: &Numbers,
    besides: &[KeyId],
    ranks: &RankedBy,
) -> Result<Vec<Written>, NoMemory>
    requires names { All (HasNames (length ranks.now.total.now)) keys.now }
    requires calls { All (λ call. call.key.0 < length keys.now) numbers.now.calls }
    requires besides { All (λ key. key.0 < length keys.now) besides.now }
    requires len { length numbers.now.counts ≡ length keys.now }
    ensures { IfOk result (λ made. IsPermutation (map (λ w. w.id) made.items) (filter
        (is_written numbers.now.counts numbers.now.calls besides.now)
        (range_with_len 0 (length keys.now)))) }
{
    let mut written = numbered(alloc, keys, numbers, besides, ranks)?;
    sort_written(&mut written)?;
    Ok(written)
}

/// The keys that have a line, by number.
fn numbered(
    alloc: Global,
    keys: &Keys,
    numbers: &Numbers,
    besides: &[KeyId],
    ranks: &RankedBy,
) -> Result<Vec<Written>, NoMemory>
    requires names { All (HasNames (length ranks.now.total.now)) keys.now }
    requires calls { All (λ call. call.key.0 < length keys.now) numbers.now.calls }
    requires besides { All (λ key. key.0 < length keys.now) besides.now }
    requires len { length numbers.now.counts ≡ length keys.now }
    ensures { IfOk result (λ made. map (λ w. w.id) made.items ≡ filter
        (is_written numbers.now.counts numbers.now.calls besides.now)
        (range_with_len 0 (length keys.now))) }
{
    let counts = numbers.counts();
    let marks = marks_of(alloc, keys.len(), numbers.calls(), besides)?;
    let mut made = Vec::new(alloc);
    for id in 0..keys.len() {
        if is_written(counts, &marks, id) {
            made.push(Written {
                rank: root_rank(keys.get(KeyId(id)), ranks),
                id,
            })?;
        }
    }
    Ok(made)
}

/// Of each of so many keys, whether a function was called from it, or it is one of `besides`.
///
/// However many calls a key has, it has one line, so that its way is kept once.
fn marks_of(
    alloc: Global,
    keys: u32,
    calls: &[Call],
    besides: &[KeyId],
) -> Result<Vec<bool>, NoMemory>
    requires calls { All (λ call. call.key.0 < keys) calls.now }
    requires besides { All (λ key. key.0 < keys) besides.now }
    ensures { IfOk result (λ marks.
        AreMarked keys (is_marked calls.now besides.now) marks.items) }
{
    let mut marks = callers_of(alloc, keys, calls)?;
    for key in besides {
        marks[key.0 as usize] = true;
    }
    Ok(marks)
}

/// Of each of so many keys, whether a function was called from it.
fn callers_of(alloc: Global, keys: u32, calls: &[Call]) -> Result<Vec<bool>, NoMemory>
    requires { All (λ call. call.key.0 < keys) calls.now }
    ensures { IfOk result (λ callers. AreMarked keys (is_caller calls.now) callers.items) }
{
    let mut callers = vec![in alloc; false; keys as usize]?;
    for call in calls {
        if call.times > 0 {
            callers[call.key.0 as usize] = true;
        }
    }
    Ok(callers)
}

/// Whether a key has a count, or a mark.
fn is_written(counts: &[u64], marks: &[bool], id: u32) -> bool
    requires count { id < length counts.now }
    requires mark { id < length marks.now }
    ensures { result ≡ (has_count counts.now id || slice_index_or marks.now id false) }
{
    counts[id as usize] > 0 || marks[id as usize]
}

/// The rank of the function of a key.
fn root_rank(key: &Key, ranks: &RankedBy) -> u32
    requires { HasNames (length ranks.now.total.now) key.now }
{
    ranks.total[key.root.0 as usize]
}

/// Puts keys into the order of their functions.
fn sort_written(written: &mut Vec<Written>) -> Result<(), AllocError>
    ensures { OnOk result (IsPermutation written.old.items written.new.items) }
{
    written.sort()
}

/// Appends these keys with their counts, those of each function in the order of their ways.
///
/// Sorting few ways that lie together leaves the sort of all items almost nothing to do.
fn push_written(
    alloc: Global,
    items: &mut Vec<Item>,
    keys: &Keys,
    counts: &[u64],
    written: &[Written],
    ranks: &RankedBy,
) -> Result<(), NoMemory>
    requires names { All (HasNames (length ranks.now.total.now)) keys.now }
    requires callees { All (HasNames (length ranks.now.name.now)) keys.now }
    requires len { length counts.now ≡ length keys.now }
    requires given { All (λ w. w.id < length keys.now) written.now }
    ensures { OnOk result (IsPermutation (map told_item items.new.items)
        (map told_item items.old.items ++ map (ranked_source ranks.now.total.now ranks.now.name.now)
        (map (of_count keys.now counts.now) (map (λ w. w.id) written.now)))) }
{
    let mut group = Vec::new(alloc);
    let mut rank = 0;
    for key in written {
        if key.rank != rank {
            append_sorted(items, &mut group)?;
            rank = key.rank;
        }
        let count = counts[key.id as usize];
        group.push(item_of(alloc, keys, KeyId(key.id), count, ranks)?)?;
    }
    append_sorted(items, &mut group)
}

/// Moves the items of a function behind the others, in the order of their ways.
fn append_sorted(items: &mut Vec<Item>, group: &mut Vec<Item>) -> Result<(), NoMemory>
    ensures same { OnOk result
        (IsPermutation (items.old.items ++ group.old.items) items.new.items) }
    ensures empty { OnOk result (group.new.items ≡ []) }
{
    sort_items(group)?;
    items.append(group)?;
    Ok(())
}

/// Appends the functions that were entered.
fn push_entered(
    alloc: Global,
    items: &mut Vec<Item>,
    heads: &[Head],
    ranks: &RankedBy,
) -> Result<(), NoMemory>
    requires heads { All (λ head. head.name.0 < length ranks.now.total.now) heads.now }
    ensures { OnOk result (map told_item items.new.items ≡ map told_item items.old.items
        ++ map (ranked_source ranks.now.total.now ranks.now.name.now) (entered heads.now)) }
{
    for head in heads {
        if head.times > 0 {
            let mut way = Vec::new(alloc);
            way.push(function_step(head.name, ranks))?;
            items.push(Item {
                way,
                count: 0,
                key: 0,
            })?;
        }
    }
    Ok(())
}

/// The item of a key, with a count.
fn item_of(
    alloc: Global,
    keys: &Keys,
    id: KeyId,
    count: u64,
    ranks: &RankedBy,
) -> Result<Item, NoMemory>
    requires given { id.0 < length keys.now }
    requires names { All (HasNames (length ranks.now.total.now)) keys.now }
    requires callees { All (HasNames (length ranks.now.name.now)) keys.now }
    ensures { IfOk result (λ item. told_item item
        ≡ ranked_source ranks.now.total.now ranks.now.name.now
        (record { way = steps_at keys.now id.0; count = count; key = id.0 })) }
{
    Ok(Item {
        way: way_of(alloc, keys.get(id), ranks)?,
        count,
        key: id.0,
    })
}

/// The way of a key.
fn way_of(alloc: Global, key: &Key, ranks: &RankedBy) -> Result<Vec<Step>, NoMemory>
    requires names { HasNames (length ranks.now.total.now) key.now }
    requires callees { HasNames (length ranks.now.name.now) key.now }
    ensures { IfOk result (λ way. way.items
        ≡ map (ranked ranks.now.total.now ranks.now.name.now) (steps_of key.now)) }
{
    let mut way = Vec::with_capacity(alloc, key.calls.as_slice().len() + 2)?;
    way.push(function_step(key.root, ranks))?;
    for frame in key.calls.as_slice() {
        way.push(call_step(frame, ranks))?;
    }
    way.push(Step {
        kind: Kind::Body,
        offset: key.offset,
        disc: key.disc,
        rank: 0,
    })?;
    Ok(way)
}

/// The step to a function that was compiled.
fn function_step(name: NameId, ranks: &RankedBy) -> Step
    requires { name.0 < length ranks.now.total.now }
    ensures { result ≡ ranked ranks.now.total.now ranks.now.name.now (at_function name.0) }
{
    Step {
        kind: Kind::Function,
        offset: 0,
        disc: 0,
        rank: ranks.total[name.0 as usize],
    }
}

/// The step of an inlined call.
fn call_step(frame: &Frame, ranks: &RankedBy) -> Step
    requires { frame.now.name.0 < length ranks.now.name.now }
    ensures { result ≡ ranked ranks.now.total.now ranks.now.name.now (frame_step frame.now) }
{
    Step {
        kind: Kind::Call,
        offset: frame.offset,
        disc: frame.disc,
        rank: ranks.name[frame.name.0 as usize],
    }
}
