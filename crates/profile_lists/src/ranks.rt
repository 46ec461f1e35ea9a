// Names in an order, and the place of each.
ghost use Rattle.std.specs.Prelude.{◌≡◌, ◌<◌, ◌≤◌, ◌^◌, All, IfOk, IsPermutation, OnOk, ℕ, length, map, nat_eq, slice_index};
ghost use Rattle.std.specs.List.{IsDistinct, range_with_len};
ghost use Rattle.std.specs.List.Sorted.{IsSortedByKey};
ghost use Rattle.profile_lists.specs.Ranks.{AreRanks, entry_cmp, entry_of};
ghost use Rattle.profile_lists.specs.Told.{told};

use item_lists::Items;
use key_types::{NameId, Names};
use refusal::NoMemory;
use std::alloc::{AllocError, Global};

/// Names in an order: by weight, then by their bytes.
// Why: Names are compared by the ranks of one sort.
#[derive(Debug, Drop)]
pub struct Ranks {
    /// The rank of each name: how many stand before it.
    pub ranks: Items<u32>,
    /// The number of the name of each rank.
    pub ids: Items<u32>,
}

/// A name with its weight and its number.
#[derive(Clone, Copy, Debug, PartialEq, Eq, PartialOrd, Ord)]
struct WeighedName<'a> {
    weight: u64,
    name: &'a [u8],
    id: u32,
}

/// The ranks of the first names, as many as there are weights: a lesser weight stands first, and of
/// equal weights the lesser name. Equal names go by their numbers.
///
/// # Errors
/// `NoMemory`.
pub fn ranks_of(alloc: Global, names: &Names, weights: &[u64]) -> Result<Ranks, NoMemory>
    requires known { length weights.now ≤ length names.now }
    requires few { length weights.now < 2 ^ 32 }
    ensures { IfOk result (λ r. AreRanks names.now weights.now r.ranks r.ids) }
{
    let mut entries = entries_of(alloc, names, weights)?;
    sort_entries(&mut entries)?;
    let ids = ids_of(alloc, &entries)?;
    let ranks = inverse(alloc, &ids)?;
    Ok(Ranks {
        ranks: Items::new(ranks),
        ids: Items::new(ids),
    })
}

/// The names with their weights, by number.
fn entries_of<'a>(
    alloc: Global,
    names: &Names<'a>,
    weights: &[u64],
) -> Result<Vec<WeighedName<'a>>, NoMemory>
    requires known { length weights.now ≤ length names.now }
    requires few { length weights.now < 2 ^ 32 }
    ensures { IfOk result (λ entries. map told entries.items
        ≡ map (entry_of names.now weights.now) (range_with_len 0 (length weights.now))) }
{
    let mut entries = Vec::new(alloc);
    for (i, weight) in weights.iter().enumerate() {
        let id = i as u32;
        entries.push(WeighedName {
            weight: *weight,
            name: names.get(NameId(id)),
            id,
        })?;
    }
    Ok(entries)
}

/// Puts entries into their order.
fn sort_entries(entries: &mut Vec<WeighedName>) -> Result<(), AllocError>
    ensures same { IsPermutation (map told entries.old.items) (map told entries.new.items) }
    ensures sorted { OnOk result (IsSortedByKey told entry_cmp entries.new.items) }
{
    entries.sort()
}

/// The numbers of the names of some entries.
fn ids_of(alloc: Global, entries: &[WeighedName]) -> Result<Vec<u32>, NoMemory>
    ensures { IfOk result (λ ids. ids.items ≡ map (λ entry. entry.id) entries.now) }
{
    Ok(entries.iter().map(|entry| entry.id).collect(alloc)?)
}

/// The place of each number in a list that has each number below its length once.
fn inverse(alloc: Global, ids: &[u32]) -> Result<Vec<u32>, NoMemory>
    requires distinct { IsDistinct nat_eq ids.now }
    requires within { All (λ id. id < length ids.now) ids.now }
    requires few { length ids.now < 2 ^ 32 }
    ensures len { IfOk result (λ ranks. length ranks.items ≡ length ids.now) }
    ensures back { IfOk result (λ ranks. (r : ℕ) → r < length ids.now →
        slice_index ranks.items (slice_index ids.now r) ≡ r) }
{
    let mut ranks = vec![in alloc; 0; ids.len()]?;
    for (rank, id) in ids.iter().enumerate() {
        ranks[*id as usize] = rank as u32;
    }
    Ok(ranks)
}
