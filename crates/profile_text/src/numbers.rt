// The numbers of a profile text, as those of a profile, and the functions that they are of.
ghost use Rattle.std.specs.Prelude.{◌≡◌, ℕ, IfOk, List, length};
ghost use Rattle.std.specs.List.{filter_map};
ghost use Rattle.profile_tree.specs.Numbers.{AreOf, CountTheSame, numbers_said};
ghost use Rattle.profile_text.specs.Numbers.{AreNumbersOf, HasKey, call_in, count_in, counted, head_in, root_of};

use crate::item::{Item, What};
use key_types::{Keys, NameId};
use profile_tree::{Call, Head, KeyCount, Numbers};
use refusal::NoMemory;
use std::alloc::Global;

/// The numbers of a profile text, in which no head, key or target has two: 0 for a key whose count
/// it does not tell.
///
/// # Errors
/// `NoMemory`.
pub fn numbers_of(alloc: Global, items: &[Item], keys: &Keys) -> Result<Numbers, NoMemory>
    requires { (names : ℕ) × AreNumbersOf names keys.now items.now }
    ensures of { IfOk result (λ numbers. (names : ℕ) → AreNumbersOf names keys.now items.now
        → AreOf names keys.now numbers) }
    ensures told { IfOk result (λ numbers. (names : List (List ℕ))
        → AreNumbersOf (length names) keys.now items.now
        → CountTheSame (numbers_said names keys.now numbers) (counted names keys.now items.now)) }
{
    let counts = counts_of(alloc, items)?;
    let calls = calls_of(alloc, items)?;
    let heads = heads_of(alloc, items)?;
    let numbers = Numbers::stated(alloc, keys.len(), &counts, calls, heads)?;
    Ok(numbers)
}

/// The counts of keys.
fn counts_of(alloc: Global, items: &[Item]) -> Result<Vec<KeyCount>, NoMemory>
    ensures { IfOk result (λ counts. counts.items ≡ filter_map count_in items.now) }
{
    let counts = items.iter().filter_map(|item| count_of(item));
    Ok(counts.collect(alloc)?)
}

/// The count that a number is, if it is one.
fn count_of(item: &Item) -> Option<KeyCount>
    ensures { result ≡ count_in item.now }
{
    let times = item.times;
    match item.what {
        What::Count(key) => Some(KeyCount { key, times }),
        What::Head(_) | What::Target(_, _) => None,
    }
}

/// The calls from keys.
fn calls_of(alloc: Global, items: &[Item]) -> Result<Vec<Call>, NoMemory>
    ensures { IfOk result (λ calls. calls.items ≡ filter_map call_in items.now) }
{
    let calls = items.iter().filter_map(|item| call_of(item));
    Ok(calls.collect(alloc)?)
}

/// The calls that a number tells of, if it is that of a target.
fn call_of(item: &Item) -> Option<Call>
    ensures { result ≡ call_in item.now }
{
    let times = item.times;
    match item.what {
        What::Target(key, callee) => Some(Call { key, callee, times }),
        What::Head(_) | What::Count(_) => None,
    }
}

/// The entries of functions.
fn heads_of(alloc: Global, items: &[Item]) -> Result<Vec<Head>, NoMemory>
    ensures { IfOk result (λ heads. heads.items ≡ filter_map head_in items.now) }
{
    let heads = items.iter().filter_map(|item| head_of(item));
    Ok(heads.collect(alloc)?)
}

/// The entries that a number tells of, if it is a head.
fn head_of(item: &Item) -> Option<Head>
    ensures { result ≡ head_in item.now }
{
    let times = item.times;
    match item.what {
        What::Head(name) => Some(Head { name, times }),
        What::Count(_) | What::Target(_, _) => None,
    }
}

/// The function that a number is of.
pub fn root_of(what: What, keys: &Keys) -> NameId
    requires { HasKey (length keys.now) what }
    ensures { result.0 ≡ root_of keys.now what }
{
    match what {
        What::Head(name) => name,
        What::Count(key) | What::Target(key, _) => keys.get(key).root,
    }
}
