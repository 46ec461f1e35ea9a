// The whole report.
ghost use Rattle.std.specs.Prelude.{◌≡◌, ◌++◌, ◌≤◌, List, OnOk};
ghost use Rattle.std.specs.Io.{StartsWith};
ghost use Rattle.sample_model.specs.Limits.{max_branches};
ghost use Rattle.report_model.specs.Report.{Classes, Sampled, branches_text, ranges_text, report_text, units_text};
ghost use Rattle.profile_report.specs.Classed.{all_times};
ghost use Rattle.profile_report.specs.Told.{Tells};

use crate::branches::count_taken;
use crate::classed::Classed;
use crate::line::push_number_line;
use crate::ranges::count_ranges;
use crate::unmapped::push_unmapped;
use branch_class::{Class, RangeClass};
use refusal::NoMemory;
use text_scan::push_number;

/// How many units of the binary were read, and how many were passed over for their version or type.
#[derive(Clone, Copy, Debug, PartialEq, Eq)]
pub struct BranchUnits {
    pub read: u64,
    pub passed: u64,
}

/// Appends the report on these branches, by source and then by target, and on these sampled ranges,
/// in any order, each with its class.
///
/// # Errors
/// `NoMemory`, and `out` may have grown: what it held stands at its front.
pub fn write(
    out: &mut Vec<u8>,
    branches: &[Classed<Class>],
    ranges: &[Classed<RangeClass>],
    units: BranchUnits,
) -> Result<(), NoMemory>
    requires few_branches { all_times branches.now ≤ max_branches }
    requires few_ranges { all_times ranges.now ≤ max_branches }
    ensures appended { OnOk result ((classes : Classes) (sampled : Sampled)
        → Tells classes sampled branches.now ranges.now units
        → out.new.items ≡ out.old.items ++ report_text classes sampled) }
    ensures grows { StartsWith out.new.items out.old.items }
{
    push_branches(out, branches)?;
    push_ranges(out, ranges)?;
    push_units(out, units)
}

/// Appends what became of the branches.
#[tactic(auto, using(text_scan::proofs::Growth::still_in_front))]
fn push_branches(out: &mut Vec<u8>, branches: &[Classed<Class>]) -> Result<(), NoMemory>
    requires { all_times branches.now ≤ max_branches }
    ensures appended { OnOk result ((classes : Classes) (sampled : Sampled)
        (ranges : List (Classed RangeClass)) (units : BranchUnits)
        → Tells classes sampled branches.now ranges units
        → out.new.items ≡ out.old.items ++ branches_text classes sampled) }
    ensures grows { StartsWith out.new.items out.old.items }
{
    let taken = count_taken(branches);
    push_number_line(out, b"branches", taken.all)?;
    push_number_line(out, b"entries", taken.entries)?;
    push_number_line(out, b"inside", taken.inside)?;
    push_unmapped(out, branches)
}

/// Appends what became of the ranges.
#[tactic(auto, using(text_scan::proofs::Growth::still_in_front))]
fn push_ranges(out: &mut Vec<u8>, ranges: &[Classed<RangeClass>]) -> Result<(), NoMemory>
    requires { all_times ranges.now ≤ max_branches }
    ensures appended { OnOk result ((classes : Classes) (sampled : Sampled)
        (branches : List (Classed Class)) (units : BranchUnits)
        → Tells classes sampled branches ranges.now units
        → out.new.items ≡ out.old.items ++ ranges_text classes sampled) }
    ensures grows { StartsWith out.new.items out.old.items }
{
    let times = count_ranges(ranges);
    push_number_line(out, b"ranges ran", times.ran)?;
    push_number_line(out, b"ranges reversed", times.reversed)?;
    push_number_line(out, b"ranges outside", times.outside)?;
    push_number_line(out, b"ranges crossing", times.crossing)
}

/// Appends what became of the units of the binary.
fn push_units(out: &mut Vec<u8>, units: BranchUnits) -> Result<(), NoMemory>
    ensures appended { OnOk result ((classes : Classes) (sampled : Sampled)
        (branches : List (Classed Class)) (ranges : List (Classed RangeClass))
        → Tells classes sampled branches ranges units
        → out.new.items ≡ out.old.items ++ units_text sampled) }
    ensures grows { StartsWith out.new.items out.old.items }
{
    out.extend_from_slice(b"# units read ")?;
    push_number(out, u128::from(units.read))?;
    out.extend_from_slice(b" passed ")?;
    push_number(out, u128::from(units.passed))?;
    out.push(b'\n')?;
    Ok(())
}
