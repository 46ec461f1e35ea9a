// A profile of samples with the lines that never ran.
ghost use Rattle.std.specs.Prelude.{◌≡◌, ◌++◌, ℕ, Bool, List, Option, true, All, IfOk, map};
ghost use Rattle.binary_places.specs.Binary.{IsBinary};
ghost use Rattle.branch_counts.specs.Tally.{Tells};
ghost use Rattle.output_model.specs.Cold.{sampled_text};
ghost use Rattle.output_model.specs.Output.{sampled_by};
ghost use Rattle.output_model.specs.Program.{program_of};
ghost use Rattle.profile_model.specs.Text.{text_of_lines};
ghost use Rattle.profile_report.specs.Told.{Tells as TellsReport};
ghost use Rattle.profile_tree.specs.Told.{IsOf, told};
ghost use Rattle.report_model.specs.Report.{Classes, Sampled, report_text};
ghost use Rattle.sample_model.specs.Moves.{LoadMap};

use binary_places::Binary;
use branch_counts::Counts;
use profile_maker::{Profiled, profile_with_cold};
use refusal::NoMemory;
use std::alloc::Global;

/// The profile of a binary and its samples, with a line of count 0 for each place of the binary
/// that has none and whose function stands in the profile, and then the report on the samples.
/// `counts` have the branches and the sampled ranges of a branch text, as they stand or moved by
/// its load lines.
///
/// # Errors
/// `NoMemory`.
pub fn cold_profile(alloc: Global, binary: Binary<'_>, counts: Counts) -> Result<Vec<u8>, NoMemory>
    requires { (file : List ℕ) × (base : Bool) × IsBinary file base binary }
    ensures { IfOk result (λ out. (file : List ℕ) (base : Bool) (loading : Option LoadMap)
        (lines : List (List ℕ)) → IsBinary file base binary.entry → counts.with_ranges ≡ true
        → Tells loading lines counts
        → out.items ≡ sampled_text (program_of file base) (sampled_by loading file lines)) }
{
    let made = profile_with_cold(alloc, binary, counts)?;
    text_of(alloc, &made)
}

/// The lines of a profile, then the report.
fn text_of(alloc: Global, made: &Profiled<'_>) -> Result<Vec<u8>, NoMemory>
    requires { All (IsOf made.now.placed.names) made.now.profile.lines }
    ensures { IfOk result (λ out. (classes : Classes) (sampled : Sampled)
        → TellsReport classes sampled made.now.profile.branches made.now.profile.ranges
        made.now.profile.units
        → out.items ≡ text_of_lines (map (told made.now.placed.names) made.now.profile.lines)
        ++ report_text classes sampled) }
{
    let mut out = Vec::new(alloc);
    made.profile.push_lines(&made.placed.names, &mut out)?;
    made.profile.push_report(&mut out)?;
    Ok(out)
}
