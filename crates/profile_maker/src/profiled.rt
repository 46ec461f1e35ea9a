// The profile of a binary, by what was counted of a branch text.
ghost use Rattle.std.specs.Prelude.{◌≡◌, ◌≤◌, ℕ, Bool, List, Option, [], length, map, true, IfOk};
ghost use Rattle.std.specs.List.{All};
ghost use Rattle.std.specs.List.Sorted.{IsSorted};
ghost use Rattle.binary_places.specs.Binary.{IsBinary, IsPlaced};
ghost use Rattle.branch_counts.specs.Pair.{pair_cmp};
ghost use Rattle.branch_counts.specs.Table.{Tallies, total_in};
ghost use Rattle.branch_counts.specs.Tally.{Tells};
ghost use Rattle.cfg_text.specs.Fun.{function_of};
ghost use Rattle.key_types.specs.Segments.{AreSegments};
ghost use Rattle.sample_model.specs.Limits.{max_branches};
ghost use Rattle.sample_model.specs.Moves.{LoadMap, branches_by, ranges_by};
ghost use Rattle.output_model.specs.Output.{sampled_by};
ghost use Rattle.output_model.specs.Program.{program_of};
ghost use Rattle.profile_tree.specs.Told.{IsOf};
ghost use Rattle.profile_writer.specs.Profile.{IsProfileOf, IsProfileWithCold};
ghost use Rattle.profile_writer.specs.Told.{TellsSampled};
ghost use Rattle.report_model.specs.Report.{Sampled};
ghost use Rattle.span_cover.specs.Stretches.{function_at};
ghost use Rattle.profile_maker.specs.Asked.{ArePlacesFor, AsksBlocks, AsksEnds, program_asked};
ghost use Rattle.profile_maker.specs.Profiled.{IsProfiledLike};

use crate::asked::{ask_blocks, ask_samples};
use binary_places::{Asked, Binary, Placed, places};
use branch_counts::Counts;
use cfg_text::Fun;
use profile_writer::{BranchUnits, Profile, Samples};
use refusal::NoMemory;
use sample_model::Pair;
use std::alloc::Global;

/// A profile, and the places and the branches that it was made of.
#[derive(Drop)]
pub struct Profiled<'a> {
    pub profile: Profile,
    pub placed: Placed<'a>,
    /// The distinct branches, by source and then by target.
    pub branches: Vec<Pair>,
    /// How many branches were sampled, all in all.
    pub total: u64,
}

/// What was counted of a branch text, in rows.
#[derive(Drop)]
struct CountedRows {
    branches: Vec<Pair>,
    ranges: Vec<Pair>,
    /// How many branches were sampled, all in all.
    total: u64,
}

/// The profile of a binary and its samples. `counts` have the branches and the sampled ranges of a
/// branch text, as they stand or moved by its load lines. Of the binary it makes the places that
/// the samples and the blocks of these functions ask for.
///
/// # Errors
/// `NoMemory`.
pub fn profile_of<'a>(
    alloc: Global,
    binary: Binary<'a>,
    counts: Counts,
    funs: &[Fun<'_>],
) -> Result<Profiled<'a>, NoMemory>
    requires binary { (file : List ℕ) × (base : Bool) × IsBinary file base binary }
    ensures told { IfOk result (λ made. (file : List ℕ) (base : Bool) (loading : Option LoadMap)
        (lines : List (List ℕ)) → IsBinary file base binary.entry → counts.with_ranges ≡ true
        → Tells loading lines counts
        → IsProfiledLike (program_of file base) (map function_of funs.now)
        (sampled_by loading file lines) made.placed.names made.placed.map.segments made.profile
        made.branches.items made.total) }
    ensures segments { IfOk result (λ made. AreSegments made.placed.map.segments) }
    ensures names { IfOk result (λ made. All (IsOf made.placed.names) made.profile.lines) }
    ensures few { IfOk result (λ made. total_in made.branches.items ≤ max_branches) }
{
    let units = units_of(&binary);
    let CountedRows {
        branches,
        ranges,
        total,
    } = rows_of(counts)?;
    profile_by_rows(alloc, binary, branches, total, &ranges, units, funs)
}

/// The same with a line for each key whose function stands in the profile, with count 0 where it
/// has neither a count nor a target. All places of the binary are made.
///
/// # Errors
/// `NoMemory`.
pub fn profile_with_cold<'a>(
    alloc: Global,
    binary: Binary<'a>,
    counts: Counts,
) -> Result<Profiled<'a>, NoMemory>
    requires { (file : List ℕ) × (base : Bool) × IsBinary file base binary }
    ensures told { IfOk result (λ made. (file : List ℕ) (base : Bool) (loading : Option LoadMap)
        (lines : List (List ℕ)) → IsBinary file base binary.entry → counts.with_ranges ≡ true
        → Tells loading lines counts
        → IsPlaced file base [] made.placed
        × IsProfileWithCold (program_of file base) (sampled_by loading file lines)
        made.placed.names made.placed.keys made.profile) }
    ensures names { IfOk result (λ made. All (IsOf made.placed.names) made.profile.lines) }
{
    let units = units_of(&binary);
    let CountedRows {
        branches,
        ranges,
        total,
    } = rows_of(counts)?;
    let placed = all_places(alloc, binary)?;
    let samples = Samples {
        branches: &branches,
        ranges: &ranges,
        units,
    };
    let profile = profile_over_all(alloc, &samples, &placed)?;
    Ok(Profiled {
        profile,
        placed,
        branches,
        total,
    })
}

/// How many units of a binary were read, and how many passed over.
fn units_of(binary: &Binary<'_>) -> BranchUnits
    ensures read { result.read ≡ binary.now.read }
    ensures passed { result.passed ≡ binary.now.passed }
{
    BranchUnits {
        read: binary.read as u64,
        passed: binary.passed as u64,
    }
}

/// The rows of branches, by source and then by target, and of sampled ranges.
fn rows_of(counts: Counts) -> Result<CountedRows, NoMemory>
    ensures told { IfOk result (λ rows. (loading : Option LoadMap) (lines : List (List ℕ))
        → counts.with_ranges ≡ true → Tells loading lines counts
        → Tallies (branches_by loading lines) rows.branches.items
        × Tallies (ranges_by loading lines) rows.ranges.items
        × (rows.total ≡ length (branches_by loading lines))) }
    ensures sorted { IfOk result (λ rows. IsSorted pair_cmp rows.branches.items) }
    ensures few_branches { IfOk result (λ rows. total_in rows.branches.items ≤ max_branches) }
    ensures few_ranges { IfOk result (λ rows. total_in rows.ranges.items ≤ max_branches) }
{
    let total = counts.total();
    let (branches, ranges) = counts.into_rows()?;
    Ok(CountedRows {
        branches,
        ranges,
        total,
    })
}

/// The profile of a binary, by the rows of its branches, of which there are so many all in all, and
/// by those of its sampled ranges.
fn profile_by_rows<'a>(
    alloc: Global,
    binary: Binary<'a>,
    branches: Vec<Pair>,
    total: u64,
    ranges: &[Pair],
    units: BranchUnits,
    funs: &[Fun<'_>],
) -> Result<Profiled<'a>, NoMemory>
    requires binary { (file : List ℕ) × (base : Bool) × IsBinary file base binary }
    requires few_branches { total_in branches.items ≤ max_branches }
    requires few_ranges { total_in ranges.now ≤ max_branches }
    ensures told { IfOk result (λ made. (file : List ℕ) (base : Bool) (sampled : Sampled)
        → IsBinary file base binary.entry → TellsSampled sampled branches.items ranges.now units
        → total ≡ length sampled.branches
        → IsProfiledLike (program_of file base) (map function_of funs.now) sampled
        made.placed.names made.placed.map.segments made.profile made.branches.items made.total) }
    ensures segments { IfOk result (λ made. AreSegments made.placed.map.segments) }
    ensures names { IfOk result (λ made. All (IsOf made.placed.names) made.profile.lines) }
    ensures few { IfOk result (λ made. total_in made.branches.items ≤ max_branches) }
{
    let placed = places_of(alloc, binary, &branches, ranges, funs)?;
    let samples = Samples {
        branches: &branches,
        ranges,
        units,
    };
    let profile = profile_over(alloc, &samples, &placed)?;
    Ok(Profiled {
        profile,
        placed,
        branches,
        total,
    })
}

/// The profile of these samples over these places.
fn profile_over(
    alloc: Global,
    samples: &Samples<'_>,
    placed: &Placed<'_>,
) -> Result<Profile, NoMemory>
    requires placed { (file : List ℕ) × (base : Bool) × (marks : List Bool)
        × IsPlaced file base marks placed.now }
    requires few_branches { total_in samples.now.branches.now ≤ max_branches }
    requires few_ranges { total_in samples.now.ranges.now ≤ max_branches }
    ensures told { IfOk result (λ profile. (file : List ℕ) (base : Bool) (marks : List Bool)
        (sampled : Sampled) → IsPlaced file base marks placed.now
        → TellsSampled sampled samples.now.branches.now samples.now.ranges.now samples.now.units
        → IsProfileOf (program_asked file base marks placed.now) sampled placed.now.names
        placed.now.map.segments profile) }
    ensures names { IfOk result (λ profile. All (IsOf placed.now.names) profile.lines) }
{
    let map = &placed.map;
    Profile::make(
        alloc,
        samples,
        map,
        map.segments(),
        &placed.keys,
        &placed.names,
    )
}

/// The profile of these samples over all places of a binary, with the lines that never ran.
fn profile_over_all(
    alloc: Global,
    samples: &Samples<'_>,
    placed: &Placed<'_>,
) -> Result<Profile, NoMemory>
    requires placed { (file : List ℕ) × (base : Bool) × IsPlaced file base [] placed.now }
    requires few_branches { total_in samples.now.branches.now ≤ max_branches }
    requires few_ranges { total_in samples.now.ranges.now ≤ max_branches }
    ensures told { IfOk result (λ profile. (file : List ℕ) (base : Bool) (sampled : Sampled)
        → IsPlaced file base [] placed.now
        → TellsSampled sampled samples.now.branches.now samples.now.ranges.now samples.now.units
        → IsProfileWithCold (program_of file base) sampled placed.now.names placed.now.keys
        profile) }
    ensures names { IfOk result (λ profile. All (IsOf placed.now.names) profile.lines) }
{
    let map = &placed.map;
    Profile::make_with_cold(
        alloc,
        samples,
        map,
        map.segments(),
        &placed.keys,
        &placed.names,
    )
}

/// All places of a binary.
// Why: `pgo-cold` asks for all functions: to ask for those of the profile it would have to read it
// twice. Of samples the functions are known before, but each one that has the name of one of them
// has lines too, so marks would have to go by names.
fn all_places<'a>(alloc: Global, binary: Binary<'a>) -> Result<Placed<'a>, NoMemory>
    requires { (file : List ℕ) × (base : Bool) × IsBinary file base binary }
    ensures { IfOk result (λ placed. (file : List ℕ) (base : Bool)
        → IsBinary file base binary.entry → IsPlaced file base [] placed) }
{
    let asked = Asked::all(alloc);
    places(alloc, binary, &asked)
}

/// The places of a binary that these samples and functions ask for.
fn places_of<'a>(
    alloc: Global,
    binary: Binary<'a>,
    branches: &[Pair],
    ranges: &[Pair],
    funs: &[Fun<'_>],
) -> Result<Placed<'a>, NoMemory>
    requires { (file : List ℕ) × (base : Bool) × IsBinary file base binary }
    ensures { IfOk result (λ placed. (file : List ℕ) (base : Bool)
        → IsBinary file base binary.entry
        → ArePlacesFor file base branches.now ranges.now funs.now placed) }
{
    let asked = asked_of(alloc, &binary, branches, ranges, funs)?;
    places(alloc, binary, &asked)
}

/// The functions of a binary whose places these samples and functions ask for.
fn asked_of(
    alloc: Global,
    binary: &Binary<'_>,
    branches: &[Pair],
    ranges: &[Pair],
    funs: &[Fun<'_>],
) -> Result<Asked, NoMemory>
    ensures branches { IfOk result (λ asked.
        All (AsksEnds (function_at binary.now.functions.stretches) asked) branches.now) }
    ensures ranges { IfOk result (λ asked.
        All (AsksEnds (function_at binary.now.functions.stretches) asked) ranges.now) }
    ensures blocks { IfOk result (λ asked. All (λ fun.
        AsksBlocks (function_at binary.now.functions.stretches) asked fun.blocks) funs.now) }
{
    let mut asked = Asked::none(alloc, binary.members.len())?;
    ask_samples(&binary.functions, branches, ranges, &mut asked);
    ask_blocks(&binary.functions, funs, &mut asked);
    Ok(asked)
}
