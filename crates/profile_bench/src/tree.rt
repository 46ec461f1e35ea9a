// The profile of a made-up program.
ghost use Rattle.std.specs.Prelude.{◌≤◌, ◌<◌, ◌*◌, ◌^◌, ℕ, All, IfOk, length};
ghost use Rattle.profile_model.specs.Steps.{hits_by};
ghost use Rattle.profile_lists.specs.Segments.{AllFit};
ghost use Rattle.key_types.specs.Segments.{AreSegments};
ghost use Rattle.profile_tree.specs.Known.{HasNames, IsGiven};
ghost use Rattle.profile_tree.specs.Sums.{calls_of, entries_of};
ghost use Rattle.profile_tree.specs.Told.{IsOf};

use crate::hits::hits_of;
use crate::program::{Laid, lay_keys, names_of, text_of};
use key_types::{KeyId, Keys, NameId, Names};
use profile_text::write;
use profile_tree::{Call, Head, Tree, build};
use range_counts::Hits;
use refusal::NoMemory;
use std::alloc::Global;

/// How many keys a function has.
const KEYS: u32 = 20;

/// How many keys there are in a program made of so many.
pub(crate) fn keys(alloc: Global, keys: u32) -> Result<u64, NoMemory> {
    let text = text_of(alloc, keys / KEYS)?;
    let names = names_of(alloc, &text, keys / KEYS)?;
    laid_keys(alloc, &names, keys)
}

/// How many keys are laid where so many are asked for.
fn laid_keys(alloc: Global, names: &Names, keys: u32) -> Result<u64, NoMemory>
    requires { 0 < length names.now }
{
    let laid = lay_keys(alloc, names, keys)?;
    Ok(u64::from(laid.keys.len()))
}

/// How many bytes the text of the profile of such a program has.
pub(crate) fn text(alloc: Global, keys: u32) -> Result<u64, NoMemory> {
    let text = text_of(alloc, keys / KEYS)?;
    let names = names_of(alloc, &text, keys / KEYS)?;
    written(alloc, &names, keys)
}

/// How many bytes the text of the profile of so many keys has.
fn written(alloc: Global, names: &Names, keys: u32) -> Result<u64, NoMemory>
    requires { 0 < length names.now }
{
    let tree = made_tree(alloc, names, keys)?;
    let mut out = Vec::new(alloc);
    write(&tree, names, &mut out)?;
    Ok(out.len() as u64)
}

/// The profile of so many keys, each of which was hit, called from and entered.
fn made_tree(alloc: Global, names: &Names, keys: u32) -> Result<Tree, NoMemory>
    requires { 0 < length names.now }
    ensures { IfOk result (λ tree. All (IsOf names.now) tree.lines) }
{
    let laid = lay_keys(alloc, names, keys)?;
    let hits = hits_of(alloc, keys, keys)?;
    counted(alloc, &laid, &hits, names)
}

/// The profile of keys that were laid, with a call from each and an entry of each function.
fn counted(alloc: Global, laid: &Laid, hits: &Hits, names: &Names) -> Result<Tree, NoMemory>
    requires some { 0 < length names.now }
    requires segments { AreSegments laid.now.segments.items }
    requires fit { AllFit (length laid.now.keys) laid.now.segments.items }
    requires named { All (HasNames (length names.now)) laid.now.keys }
    requires hits { (a : ℕ) → hits_by hits.now a < 2 ^ 32 }
    ensures { IfOk result (λ tree. All (IsOf names.now) tree.lines) }
{
    let calls = made_calls(alloc, &laid.keys, names)?;
    let heads = made_heads(alloc, names)?;
    build(
        alloc,
        &laid.segments,
        hits,
        &calls,
        &heads,
        &laid.keys,
        names,
    )
}

/// A call from each key.
fn made_calls(alloc: Global, keys: &Keys, names: &Names) -> Result<Vec<Call>, NoMemory>
    requires { 0 < length names.now }
    ensures given { IfOk result (λ calls.
        All (IsGiven (length keys.now) (length names.now)) calls.items) }
    ensures sums { IfOk result (λ calls. (key callee : ℕ) →
        calls_of calls.items key callee < 2 ^ 64) }
{
    let mut calls = Vec::new(alloc);
    for key in 0..keys.len() {
        calls.push(Call {
            key: KeyId(key),
            callee: NameId(key % names.len()),
            times: 3,
        })?;
    }
    Ok(calls)
}

/// An entry of each function.
fn made_heads(alloc: Global, names: &Names) -> Result<Vec<Head>, NoMemory>
    ensures given { IfOk result (λ heads.
        All (λ head. head.name.0 < length names.now) heads.items) }
    ensures sums { IfOk result (λ heads. (name : ℕ) → entries_of heads.items name < 2 ^ 64) }
{
    let mut heads = Vec::new(alloc);
    for name in 0..names.len() {
        heads.push(Head {
            name: NameId(name),
            times: 3,
        })?;
    }
    Ok(heads)
}
