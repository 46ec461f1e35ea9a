// The summary of what is built: how much there is of each, and what all comes to.
ghost use Rattle.std.specs.Prelude.{◌≡◌, ◌++◌, ℕ, Bool, List, Option, true, IfOk, OnOk, map};
ghost use Rattle.std.specs.List.{All};
ghost use Rattle.text_model.specs.Numbers.{decimal_text};
ghost use Rattle.binary_places.specs.Binary.{IsBinary};
ghost use Rattle.branch_counts.specs.Tally.{Tells};
ghost use Rattle.cfg_text.specs.Fun.{function_of};
ghost use Rattle.flow_model.specs.Sound.{IsSound};
ghost use Rattle.key_types.specs.Segments.{AreSegments};
ghost use Rattle.report_model.specs.Report.{Sampled};
ghost use Rattle.sample_model.specs.Moves.{LoadMap};
ghost use Rattle.output_model.specs.Output.{sampled_by};
ghost use Rattle.output_model.specs.Program.{Program, program_of};
ghost use Rattle.output_model.specs.Summary.{IsSummary, summary_text};
ghost use Rattle.profile_maker.specs.Profiled.{IsProfiled};

use binary_places::Binary;
use branch_counts::Counts;
use cfg_text::Fun;
use profile_maker::{Profiled, profile_of};
use refusal::NoMemory;
use repair_maker::{Costs, costs_of};
use std::alloc::Global;
use text_scan::push_number;

/// What a summary tells.
#[derive(Clone, Copy, Debug)]
struct Summary {
    functions: usize,
    /// How many branches were sampled, all in all.
    branches: u64,
    /// The totals of all functions of the profile, together.
    total: u128,
    costs: Costs,
}

/// The summary of a binary, its samples and these functions: the profile and the repairs are those
/// of `build` without weights of edges, and of them only what they come to is written.
///
/// # Errors
/// `NoMemory`, also where the costs would not fit 128 bits.
pub fn summarize(
    alloc: Global,
    binary: Binary<'_>,
    counts: Counts,
    funs: &[Fun<'_>],
) -> Result<Vec<u8>, NoMemory>
    requires binary { (file : List ℕ) × (base : Bool) × IsBinary file base binary }
    requires sound { All (λ fun. IsSound fun.blocks fun.edges) funs.now }
    ensures { IfOk result (λ out. (file : List ℕ) (base : Bool) (loading : Option LoadMap)
        (lines : List (List ℕ)) → IsBinary file base binary.entry → counts.with_ranges ≡ true
        → Tells loading lines counts
        → IsSummary (program_of file base) (sampled_by loading file lines)
        (map function_of funs.now) out.items) }
{
    let made = profile_of(alloc, binary, counts, funs)?;
    line_of(alloc, &made, funs)
}

/// The line that sums up a profile and the repairs of these functions by its counts.
fn line_of(alloc: Global, made: &Profiled<'_>, funs: &[Fun<'_>]) -> Result<Vec<u8>, NoMemory>
    requires segments { AreSegments made.now.placed.map.segments }
    requires sound { All (λ fun. IsSound fun.blocks fun.edges) funs.now }
    ensures { IfOk result (λ out. (program : Program) (sampled : Sampled)
        → IsProfiled program sampled made.now.placed.names made.now.placed.map.segments
        made.now.profile made.now.branches.items made.now.total
        → IsSummary program sampled (map function_of funs.now) out.items) }
{
    let segments = made.placed.map.segments();
    let costs = costs_of(alloc, funs, segments, made.profile.counts())?;
    text_of(
        alloc,
        Summary {
            functions: funs.len(),
            branches: made.total,
            total: made.profile.total(),
            costs,
        },
    )
}

/// A summary's line.
#[tactic(auto, unfolding(output_model::specs::Summary::summary_text))]
fn text_of(alloc: Global, summary: Summary) -> Result<Vec<u8>, NoMemory>
    ensures { IfOk result (λ out. out.items ≡ summary_text (record {
      functions = summary.functions;
      branches = summary.branches;
      total = summary.total;
      cost = summary.costs.cost;
      cuts = summary.costs.cuts;
    })) }
{
    let mut out = Vec::new(alloc);
    push_named(&mut out, b"functions ", summary.functions as u128)?;
    push_named(&mut out, b" branches ", u128::from(summary.branches))?;
    push_named(&mut out, b" total ", summary.total)?;
    push_named(&mut out, b" cost ", summary.costs.cost)?;
    push_named(&mut out, b" cuts ", summary.costs.cuts as u128)?;
    out.push(b'\n')?;
    Ok(out)
}

/// Appends a number behind its name.
fn push_named(out: &mut Vec<u8>, name: &[u8], number: u128) -> Result<(), NoMemory>
    ensures { OnOk result (out.new.items ≡ out.old.items ++ (name.now ++ decimal_text number)) }
{
    out.extend_from_slice(name)?;
    push_number(out, number)
}
