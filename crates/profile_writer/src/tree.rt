// The lines of a profile, from classed branches and ranges.
ghost use Rattle.std.specs.Prelude.{◌≡◌, ◌<◌, ◌≤◌, ◌^◌, ℕ, All, IfOk, OnOk, false, length, map, nat_lt};
ghost use Rattle.std.specs.List.{filter_map};
ghost use Rattle.cold_model.specs.Cold.{standing_lines_of};
ghost use Rattle.profile_model.specs.Hits.{AreRanges, hits_at};
ghost use Rattle.profile_lists.specs.Segments.{AllFit};
ghost use Rattle.key_types.specs.Segments.{AreSegments};
ghost use Rattle.profile_report.specs.Classed.{all_times};
ghost use Rattle.profile_tree.specs.Said.{AreCountsOfPlaces, said};
ghost use Rattle.profile_tree.specs.Standing.{first_ways};
ghost use Rattle.profile_tree.specs.Stated.{AreGiven};
ghost use Rattle.profile_tree.specs.Told.{IsOf, told};
ghost use Rattle.sample_model.specs.Limits.{max_branches};
ghost use Rattle.profile_writer.specs.Items.{call_in, head_in, ran_in};

use crate::counted::{calls_of, heads_of, ran_of};
use branch_class::{Class, RangeClass};
use key_types::{Keys, Names, Places, Seg};
use profile_report::Classed;
use profile_tree::{Numbers, Tree, standing_keys};
use range_counts::sweep;
use refusal::NoMemory;
use std::alloc::Global;

/// The profile of these branches and ranges, in which each of the first `known` keys has a line
/// whose function stands there.
pub(crate) fn tree_of<P: Places>(
    alloc: Global,
    branches: &[Classed<Class>],
    ranges: &[Classed<RangeClass>],
    places: &P,
    segments: &[Seg],
    known: u32,
    keys: &Keys,
    names: &Names,
) -> Result<Tree, NoMemory>
    requires segments { AreSegments segments.now }
    requires fit { AllFit (length keys.now) segments.now }
    requires known { known ≤ length keys.now }
    requires given { AreGiven (length names.now) keys.now
        (filter_map (call_in (P.place_of places.now)) branches.now)
        (filter_map head_in branches.now) }
    requires forward { AreRanges (filter_map ran_in ranges.now) }
    requires few_branches { all_times branches.now ≤ max_branches }
    requires few_ranges { all_times ranges.now ≤ max_branches }
    ensures lines { IfOk result (λ tree. map (told names.now) tree.lines
        ≡ standing_lines_of (first_ways names.now keys.now known)
        (said names.now keys.now tree.counts
        (filter_map (call_in (P.place_of places.now)) branches.now)
        (filter_map head_in branches.now))) }
    ensures names { IfOk result (λ tree. All (IsOf names.now) tree.lines) }
    ensures counts { IfOk result (λ tree. AreCountsOfPlaces segments.now
        (hits_at (filter_map ran_in ranges.now)) tree.counts) }
    ensures len { IfOk result (λ tree. length tree.counts ≡ length keys.now) }
    ensures small { IfOk result (λ tree. All (λ count. count < 2 ^ 44) tree.counts) }
    ensures beyond { OnOk result ((address : ℕ) → nat_lt address (2 ^ 64) ≡ false
        → hits_at (filter_map ran_in ranges.now) address ≡ 0) }
{
    let numbers = numbers_of(alloc, branches, ranges, places, segments, keys.len())?;
    let besides = standing_keys(alloc, &numbers, known, keys, names)?;
    let tree = profile_tree::tree_of(alloc, numbers, &besides, keys, names)?;
    Ok(tree)
}

/// The numbers of these branches and ranges.
fn numbers_of<P: Places>(
    alloc: Global,
    branches: &[Classed<Class>],
    ranges: &[Classed<RangeClass>],
    places: &P,
    segments: &[Seg],
    keys: u32,
) -> Result<Numbers, NoMemory>
    requires segments { AreSegments segments.now }
    requires fit { AllFit keys segments.now }
    requires forward { AreRanges (filter_map ran_in ranges.now) }
    requires few_branches { all_times branches.now ≤ max_branches }
    requires few_ranges { all_times ranges.now ≤ max_branches }
    ensures counts { IfOk result (λ numbers. AreCountsOfPlaces segments.now
        (hits_at (filter_map ran_in ranges.now)) numbers.counts) }
    ensures len { IfOk result (λ numbers. length numbers.counts ≡ keys) }
    ensures small { IfOk result (λ numbers. All (λ count. count < 2 ^ 44) numbers.counts) }
    ensures calls { IfOk result (λ numbers.
        numbers.calls ≡ filter_map (call_in (P.place_of places.now)) branches.now) }
    ensures heads { IfOk result (λ numbers. numbers.heads ≡ filter_map head_in branches.now) }
    ensures beyond { OnOk result ((address : ℕ) → nat_lt address (2 ^ 64) ≡ false
        → hits_at (filter_map ran_in ranges.now) address ≡ 0) }
{
    let hits = sweep(alloc, &ran_of(alloc, ranges)?)?;
    let calls = calls_of(alloc, branches, places)?;
    let heads = heads_of(alloc, branches)?;
    Numbers::of_places(alloc, keys, segments, &hits, calls, heads)
}
