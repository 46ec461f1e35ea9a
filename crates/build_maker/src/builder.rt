// The profile of a binary, a repair of each function of a block text, and the report.
ghost use Rattle.std.specs.Prelude.{◌≡◌, ◌≤◌, ◌++◌, ◌^◌, ℕ, Bool, List, Option, [], true, IfOk, OnOk, length, map, if◌then◌else◌};
ghost use Rattle.std.specs.List.{All};
ghost use Rattle.binary_places.specs.Binary.{IsBinary};
ghost use Rattle.block_weights.specs.Counts.{count_in};
ghost use Rattle.block_weights.specs.Sampled.{Tell};
ghost use Rattle.branch_counts.specs.Table.{Tallies, total_in};
ghost use Rattle.branch_counts.specs.Tally.{Tells};
ghost use Rattle.cfg_text.specs.Fun.{function_of};
ghost use Rattle.flow_model.specs.Sound.{IsSound};
ghost use Rattle.key_types.specs.Segments.{AreSegments, key_told};
ghost use Rattle.sample_model.specs.Limits.{max_branches};
ghost use Rattle.sample_model.specs.Moves.{LoadMap};
ghost use Rattle.profile_tree.specs.Told.{IsOf};
ghost use Rattle.report_model.specs.Report.{Sampled};
ghost use Rattle.repair_model.specs.Made.{AreRepairsOf};
ghost use Rattle.output_model.specs.Output.{sampled_by};
ghost use Rattle.output_model.specs.Program.{Program, program_of};
ghost use Rattle.output_model.specs.Scaled.{AreAllAugmentations, IsBuiltBy, augmentations_line};
ghost use Rattle.profile_writer.specs.Profile.{IsProfileOf, ran as ranges_run};
ghost use Rattle.build_maker.specs.Edges.{edges_by};

use binary_places::{Binary, Placed};
use block_weights::EdgeSamples;
use branch_counts::Counts;
use cfg_text::Fun;
use key_types::Seg;
use output_model::RepairOptions;
use profile_maker::{Profiled, profile_of};
use profile_writer::Profile;
use refusal::NoMemory;
use sample_model::Pair;
use std::alloc::Global;
use text_scan::push_number;

/// The profile of a binary and its samples, then a repair of each of these functions, then the
/// report. `counts` have the branches and the sampled ranges of a branch text, as they stand or
/// moved by its load lines. With `options.edges` the edges of functions have weights too. With
/// `options.scaled` functions are repaired within a bound on augmentations, and a last line tells
/// how many there were. There are at most 2^29 functions.
///
/// # Errors
/// `NoMemory`.
pub fn build(
    alloc: Global,
    binary: Binary<'_>,
    counts: Counts,
    funs: &[Fun<'_>],
    options: RepairOptions,
) -> Result<Vec<u8>, NoMemory>
    requires binary { (file : List ℕ) × (base : Bool) × IsBinary file base binary }
    requires sound { All (λ fun. IsSound fun.blocks fun.edges) funs.now }
    requires few { length funs.now ≤ 2 ^ 29 }
    ensures { IfOk result (λ out. (file : List ℕ) (base : Bool) (loading : Option LoadMap)
        (lines : List (List ℕ)) → IsBinary file base binary.entry → counts.with_ranges ≡ true
        → Tells loading lines counts
        → IsBuiltBy options (program_of file base) (sampled_by loading file lines)
        (map function_of funs.now) out.items) }
{
    let Profiled {
        profile,
        placed,
        branches,
        ..
    } = profile_of(alloc, binary, counts, funs)?;
    text_of(alloc, &profile, &placed, branches, funs, options)
}

/// The lines of a profile, a repair of each function by its counts, the report, and the line that
/// tells a number of augmentations where it is asked for.
fn text_of(
    alloc: Global,
    profile: &Profile,
    placed: &Placed<'_>,
    branches: Vec<Pair>,
    funs: &[Fun<'_>],
    options: RepairOptions,
) -> Result<Vec<u8>, NoMemory>
    requires segments { AreSegments placed.now.map.segments }
    requires names { All (IsOf placed.now.names) profile.now.lines }
    requires few_branches { total_in branches.items ≤ max_branches }
    requires sound { All (λ fun. IsSound fun.blocks fun.edges) funs.now }
    requires few { length funs.now ≤ 2 ^ 29 }
    ensures { IfOk result (λ out. (program : Program) (sampled : Sampled)
        → IsProfileOf program sampled placed.now.names placed.now.map.segments profile.now
        → Tallies sampled.branches branches.items
        → IsBuiltBy options program sampled (map function_of funs.now) out.items) }
{
    let segments = placed.map.segments();
    let mut out = Vec::new(alloc);
    profile.push_lines(&placed.names, &mut out)?;
    let augmentations = push_repairs(alloc, profile, branches, segments, funs, options, &mut out)?;
    profile.push_report(&mut out)?;
    push_augmentations(&mut out, options.scaled, augmentations)?;
    Ok(out)
}

/// Appends the line that tells a number of augmentations, where it is asked for.
#[tactic(auto, unfolding(output_model::specs::Scaled::augmentations_line))]
fn push_augmentations(out: &mut Vec<u8>, asked: bool, augmentations: u64) -> Result<(), NoMemory>
    ensures { OnOk result (out.new.items
        ≡ out.old.items ++ (if asked then augmentations_line augmentations else [])) }
{
    if asked {
        out.extend_from_slice(b"# augmentations ")?;
        push_number(out, u128::from(augmentations))?;
        out.push(b'\n')?;
    }
    Ok(())
}

/// Appends a repair of each function, by the counts of a profile, and answers how many
/// augmentations were counted. Where it is asked for it weighs edges by the branches, and by the
/// ranges that ran.
fn push_repairs(
    alloc: Global,
    profile: &Profile,
    branches: Vec<Pair>,
    segments: &[Seg],
    funs: &[Fun<'_>],
    options: RepairOptions,
    out: &mut Vec<u8>,
) -> Result<u64, NoMemory>
    requires segments { AreSegments segments.now }
    requires few_branches { total_in branches.items ≤ max_branches }
    requires sound { All (λ fun. IsSound fun.blocks fun.edges) funs.now }
    requires few { length funs.now ≤ 2 ^ 29 }
    ensures repaired { OnOk result ((text : List ℕ) × (out.new.items ≡ out.old.items ++ text)
        × AreRepairsOf (key_told segments.now) (count_in profile.now.counts)
        (edges_by options.edges branches.items (ranges_run profile.now))
        (map function_of funs.now) text) }
    ensures counted { IfOk result (λ augmentations. AreAllAugmentations
        (key_told segments.now) (count_in profile.now.counts)
        (edges_by options.edges branches.items (ranges_run profile.now))
        (map function_of funs.now) augmentations) }
{
    let counts = profile.counts();
    if options.edges {
        let samples = edge_samples(alloc, profile, branches)?;
        repair_maker::write(alloc, funs, segments, counts, Some(&samples), options, out)
    } else {
        drop(branches);
        repair_maker::write(alloc, funs, segments, counts, None, options, out)
    }
}

/// The branches, and the ranges of a profile that ran, in order.
fn edge_samples(
    alloc: Global,
    profile: &Profile,
    branches: Vec<Pair>,
) -> Result<EdgeSamples, NoMemory>
    requires { total_in branches.items ≤ max_branches }
    ensures { IfOk result (Tell branches.items (ranges_run profile.now)) }
{
    let ran = profile.ran(alloc)?;
    EdgeSamples::new(alloc, branches, &ran)
}
