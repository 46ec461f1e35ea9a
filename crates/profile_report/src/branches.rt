// How often branches of each class were taken.
ghost use Rattle.std.specs.Prelude.{◌≡◌, ◌≤◌};
ghost use Rattle.report_model.specs.Branches.{is_entry, is_inside};
ghost use Rattle.sample_model.specs.Limits.{max_branches};
ghost use Rattle.profile_report.specs.Classed.{all_times, times_where};

use crate::classed::Classed;
use branch_class::Class;

/// How often branches were taken: all, those that enter a function, and those inside.
#[derive(Clone, Copy, Debug, PartialEq, Eq)]
pub(crate) struct TakenCounts {
    pub all: u64,
    pub entries: u64,
    pub inside: u64,
}

/// How often these branches were taken.
pub(crate) fn count_taken(branches: &[Classed<Class>]) -> TakenCounts
    requires { all_times branches.now ≤ max_branches }
    ensures all { result.all ≡ all_times branches.now }
    ensures entries { result.entries ≡ times_where is_entry branches.now }
    ensures inside { result.inside ≡ times_where is_inside branches.now }
{
    let mut taken = TakenCounts {
        all: 0,
        entries: 0,
        inside: 0,
    };
    for Classed { row, class } in branches {
        taken.all += row.times;
        match class {
            Class::Entry(_) => taken.entries += row.times,
            Class::Inside => taken.inside += row.times,
            Class::Unmapped(_) => {}
        }
    }
    taken
}
