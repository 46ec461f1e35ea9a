// The branches that cannot be told of places, by reason.
ghost use Rattle.std.specs.Prelude.{◌≡◌, ◌++◌, filter, OnErr, OnOk};
ghost use Rattle.std.specs.Io.{StartsWith};
ghost use Rattle.std.specs.List.{flat_map};
ghost use Rattle.report_model.specs.Branches.{is_unmapped};
ghost use Rattle.report_model.specs.Report.{reasons};
ghost use Rattle.profile_report.specs.Classed.{line_for, lines_for};

use crate::classed::Classed;
use crate::line::push_unmapped_line;
use branch_class::{Class, Reason};
use refusal::NoMemory;

/// The reasons, in the order in which they are tried.
const REASONS: [Reason; 5] = [
    Reason::FromOutside,
    Reason::FromNameless,
    Reason::FromNoLine,
    Reason::ToOutside,
    Reason::ToNameless,
];

/// Appends the lines of the unmapped branches, by reason.
#[tactic(auto, using(text_scan::proofs::Growth::still_in_front))]
pub(crate) fn push_unmapped(out: &mut Vec<u8>, branches: &[Classed<Class>]) -> Result<(), NoMemory>
    ensures appended { OnOk result
        (out.new.items ≡ out.old.items ++ flat_map (lines_for branches.now) reasons) }
    ensures grows { OnErr result (StartsWith out.new.items out.old.items) }
{
    for reason in REASONS {
        push_unmapped_for(out, branches, reason)?;
    }
    Ok(())
}

/// Appends the lines of the branches that are unmapped for one reason.
#[tactic(auto, using(text_scan::proofs::Growth::still_in_front))]
fn push_unmapped_for(
    out: &mut Vec<u8>,
    branches: &[Classed<Class>],
    reason: Reason,
) -> Result<(), NoMemory>
    ensures appended { OnOk result
        (out.new.items ≡ out.old.items ++ lines_for branches.now reason) }
    ensures grows { OnErr result (StartsWith out.new.items out.old.items) }
{
    for Classed { row, class } in branches {
        if is_unmapped_for(reason, *class) {
            push_unmapped_line(out, reason, row)?;
        }
    }
    Ok(())
}

/// Whether a class is that of a branch that is unmapped for this reason.
fn is_unmapped_for(reason: Reason, class: Class) -> bool
    ensures { result ≡ is_unmapped reason class }
{
    class == Class::Unmapped(reason)
}
