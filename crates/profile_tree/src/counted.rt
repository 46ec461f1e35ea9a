// A profile, from what was counted.
ghost use Rattle.std.specs.Prelude.{◌≡◌, ◌<◌, ◌^◌, ℕ, All, IfOk, length, map};
ghost use Rattle.profile_model.specs.Steps.{hits_by};
ghost use Rattle.profile_lists.specs.Segments.{AllFit};
ghost use Rattle.key_types.specs.Segments.{AreSegments};
ghost use Rattle.key_types.specs.Numbers.{IsNumbered};
ghost use Rattle.cold_model.specs.Cold.{lines_with};
ghost use Rattle.profile_model.specs.Profile.{lines_of};
ghost use Rattle.profile_tree.specs.Said.{AreCountsOfPlaces, said, stated, ways_said};
ghost use Rattle.profile_tree.specs.Numbers.{AreOf, numbers_said};
ghost use Rattle.profile_tree.specs.Stated.{AreGiven, AreStated};
ghost use Rattle.profile_tree.specs.Sums.{AreEach, calls_of, count_stated, entries_of};
ghost use Rattle.profile_tree.specs.Told.{IsOf, told};

use crate::head::Head;
use crate::items::{RankedBy, items_of};
use crate::key_count::KeyCount;
use crate::line::Line;
use crate::lines::{Parts, lines_of};
use crate::numbers::Numbers;
use crate::order::{by_name, by_total};
use crate::sums::{heads_of, totals_of};
use crate::tree::Tree;
use item_lists::Items;
use key_types::{KeyId, Keys, Names, Seg};
use profile_lists::{Call, rows_of, sort_items, targets_of};
use range_counts::Hits;
use refusal::NoMemory;
use std::alloc::Global;

/// The profile of numbers, where the keys of `besides` have lines too, in any order and however
/// often they stand there: a key that has neither a count nor a target has a line with count 0. A
/// total stands still at 2^64 - 1.
///
/// All numbers are of `keys` and `names`.
///
/// # Errors
/// `NoMemory`.
pub fn tree_of(
    alloc: Global,
    numbers: Numbers,
    besides: &[KeyId],
    keys: &Keys,
    names: &Names,
) -> Result<Tree, NoMemory>
    requires numbers { AreOf (length names.now) keys.now numbers }
    requires besides { All (λ key. key.0 < length keys.now) besides.now }
    ensures lines { IfOk result (λ tree. map (told names.now) tree.lines
        ≡ lines_with (ways_said names.now keys.now besides.now)
        (numbers_said names.now keys.now numbers)) }
    ensures names { IfOk result (λ tree. All (IsOf names.now) tree.lines) }
    ensures counts { IfOk result (λ tree. tree.counts ≡ numbers.counts) }
{
    keys.each_once();
    names.each_once();
    let lines = lines_of_numbers(alloc, &numbers, besides, keys, names)?;
    Ok(Tree {
        lines: Items::new(lines),
        counts: Items::new(numbers.into_counts()),
    })
}

/// The profile of what was counted: how often addresses ran, what was called, and what was entered.
///
/// The count of a key is the largest hits times factor of the addresses of its segments, and below
/// 2^44. A total stands still at 2^64 - 1.
///
/// Segments are disjoint, ascending and not empty, all numbers are of `keys` and `names`, hits are
/// below 2^32 and factors below 4,096. The times of one function's heads add up to less than 2^64,
/// and so do those of one function's calls from one key.
///
/// # Errors
/// `NoMemory`.
// Why: This and `from_counts` take slices, as any caller has them, and so copy calls and heads.
pub fn build(
    alloc: Global,
    segments: &[Seg],
    hits: &Hits,
    calls: &[Call],
    heads: &[Head],
    keys: &Keys,
    names: &Names,
) -> Result<Tree, NoMemory>
    requires segments { AreSegments segments.now }
    requires fit { AllFit (length keys.now) segments.now }
    requires hits { (a : ℕ) → hits_by hits.now a < 2 ^ 32 }
    requires given { AreGiven (length names.now) keys.now calls.now heads.now }
    requires call_sums { (key callee : ℕ) → calls_of calls.now key callee < 2 ^ 64 }
    requires head_sums { (name : ℕ) → entries_of heads.now name < 2 ^ 64 }
    ensures lines { IfOk result (λ tree. map (told names.now) tree.lines
        ≡ lines_of (said names.now keys.now tree.counts calls.now heads.now)) }
    ensures names { IfOk result (λ tree. All (IsOf names.now) tree.lines) }
    ensures counts { IfOk result (λ tree.
        AreCountsOfPlaces segments.now (hits_by hits.now) tree.counts) }
    ensures len { IfOk result (λ tree. length tree.counts ≡ length keys.now) }
    ensures small { IfOk result (λ tree. All (λ count. count < 2 ^ 44) tree.counts) }
{
    let calls = Vec::from_slice(alloc, calls)?;
    let heads = Vec::from_slice(alloc, heads)?;
    let numbers = Numbers::of_places(alloc, keys.len(), segments, hits, calls, heads)?;
    tree_of(alloc, numbers, &[], keys, names)
}

/// The profile of counts, calls and heads that are known: each key, target and head has the number
/// that is stated of it, or 0 where none is. A total stands still at 2^64 - 1.
///
/// Each key stands once in `counts`, each pair of a key and a callee once in `calls` and each
/// function once in `heads`; all numbers are of `keys` and `names`.
///
/// # Errors
/// `NoMemory`.
pub fn from_counts(
    alloc: Global,
    counts: &[KeyCount],
    calls: &[Call],
    heads: &[Head],
    keys: &Keys,
    names: &Names,
) -> Result<Tree, NoMemory>
    requires { AreStated (length names.now) keys.now counts.now calls.now heads.now }
    ensures lines { IfOk result (λ tree. map (told names.now) tree.lines
        ≡ lines_of (stated names.now keys.now counts.now calls.now heads.now)) }
    ensures names { IfOk result (λ tree. All (IsOf names.now) tree.lines) }
    ensures counts { IfOk result (λ tree.
        AreEach (length keys.now) (count_stated counts.now) tree.counts) }
{
    let calls = Vec::from_slice(alloc, calls)?;
    let heads = Vec::from_slice(alloc, heads)?;
    let numbers = Numbers::stated(alloc, keys.len(), counts, calls, heads)?;
    tree_of(alloc, numbers, &[], keys, names)
}

/// The lines of a profile of numbers, where the keys of `besides` have lines too.
fn lines_of_numbers(
    alloc: Global,
    numbers: &Numbers,
    besides: &[KeyId],
    keys: &Keys,
    names: &Names,
) -> Result<Vec<Line>, NoMemory>
    requires numbers { AreOf (length names.now) keys.now numbers.now }
    requires keys { IsNumbered keys.now }
    requires names { IsNumbered names.now }
    requires besides { All (λ key. key.0 < length keys.now) besides.now }
    ensures lines { IfOk result (λ lines. map (told names.now) lines.items
        ≡ lines_with (ways_said names.now keys.now besides.now)
        (numbers_said names.now keys.now numbers.now)) }
    ensures names { IfOk result (λ lines. All (IsOf names.now) lines.items) }
{
    let counts = numbers.counts();
    let totals = totals_of(alloc, names.len(), keys, counts)?;
    let by_total = by_total(alloc, names, &totals)?;
    let by_name = by_name(alloc, names)?;
    let ranks = RankedBy {
        total: by_total.ranks.as_slice(),
        name: by_name.ranks.as_slice(),
    };
    let mut items = items_of(alloc, keys, numbers, besides, &ranks)?;
    sort_items(&mut items)?;
    let rows = rows_of(alloc, &items)?;
    let targets = targets_of(alloc, numbers.calls(), by_name.ranks.as_slice())?;
    let heads = heads_of(alloc, names.len(), numbers.heads())?;
    let parts = Parts {
        by_total: &by_total,
        by_name: &by_name,
        heads: &heads,
        counts,
        targets: &targets,
    };
    lines_of(alloc, &parts, &rows)
}
