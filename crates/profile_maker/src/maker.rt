// The profile of a binary and the report on its samples.
ghost use Rattle.std.specs.Prelude.{◌≡◌, ℕ, Bool, List, Option, true, IfOk};
ghost use Rattle.std.specs.List.{All};
ghost use Rattle.binary_places.specs.Binary.{IsBinary};
ghost use Rattle.branch_counts.specs.Tally.{Tells};
ghost use Rattle.sample_model.specs.Moves.{LoadMap};
ghost use Rattle.output_model.specs.Output.{output_text, sampled_by};
ghost use Rattle.output_model.specs.Program.{Program, program_of};
ghost use Rattle.profile_tree.specs.Told.{IsOf};
ghost use Rattle.report_model.specs.Report.{Sampled};
ghost use Rattle.profile_maker.specs.Profiled.{IsProfiled};

use crate::profiled::{Profiled, profile_of};
use binary_places::Binary;
use branch_counts::Counts;
use refusal::NoMemory;
use std::alloc::Global;

/// The profile of a binary and its samples, then the report on them. `counts` have the branches and
/// the sampled ranges of a branch text, as they stand or moved by its load lines.
///
/// # Errors
/// `NoMemory`.
pub fn make(alloc: Global, binary: Binary<'_>, counts: Counts) -> Result<Vec<u8>, NoMemory>
    requires { (file : List ℕ) × (base : Bool) × IsBinary file base binary }
    ensures { IfOk result (λ out. (file : List ℕ) (base : Bool) (loading : Option LoadMap)
        (lines : List (List ℕ)) → IsBinary file base binary.entry → counts.with_ranges ≡ true
        → Tells loading lines counts
        → out.items ≡ output_text (program_of file base) (sampled_by loading file lines)) }
{
    let made = profile_of(alloc, binary, counts, &[])?;
    text_of(alloc, &made)
}

/// The lines of a profile, then the report.
fn text_of(alloc: Global, made: &Profiled<'_>) -> Result<Vec<u8>, NoMemory>
    requires { All (IsOf made.now.placed.names) made.now.profile.lines }
    ensures { IfOk result (λ out. (program : Program) (sampled : Sampled)
        → IsProfiled program sampled made.now.placed.names made.now.placed.map.segments
        made.now.profile made.now.branches.items made.now.total
        → out.items ≡ output_text program sampled) }
{
    let mut out = Vec::new(alloc);
    made.profile.push_lines(&made.placed.names, &mut out)?;
    made.profile.push_report(&mut out)?;
    Ok(out)
}
