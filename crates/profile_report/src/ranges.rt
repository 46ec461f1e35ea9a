// How often sampled ranges of each class stand.
ghost use Rattle.std.specs.Prelude.{◌≡◌, ◌≤◌};
ghost use Rattle.report_model.specs.Ranges.{is_class};
ghost use Rattle.report_model.specs.declared.class.RangeClass.TheVariants.{Ran, Reversed, RangeOutside, Crossing};
ghost use Rattle.sample_model.specs.Limits.{max_branches};
ghost use Rattle.profile_report.specs.Classed.{all_times, times_where};

use crate::classed::Classed;
use branch_class::RangeClass;

/// How often the sampled ranges of each class stand.
#[derive(Clone, Copy, Debug, PartialEq, Eq)]
pub(crate) struct RangeTimes {
    pub ran: u64,
    pub reversed: u64,
    pub outside: u64,
    pub crossing: u64,
}

/// How often the ranges of each class stand.
pub(crate) fn count_ranges(ranges: &[Classed<RangeClass>]) -> RangeTimes
    requires { all_times ranges.now ≤ max_branches }
    ensures ran { result.ran ≡ times_where (is_class Ran) ranges.now }
    ensures reversed { result.reversed ≡ times_where (is_class Reversed) ranges.now }
    ensures outside { result.outside ≡ times_where (is_class RangeOutside) ranges.now }
    ensures crossing { result.crossing ≡ times_where (is_class Crossing) ranges.now }
{
    let mut times = RangeTimes {
        ran: 0,
        reversed: 0,
        outside: 0,
        crossing: 0,
    };
    for Classed { row, class } in ranges {
        match class {
            RangeClass::Ran => times.ran += row.times,
            RangeClass::Reversed => times.reversed += row.times,
            RangeClass::RangeOutside => times.outside += row.times,
            RangeClass::Crossing => times.crossing += row.times,
        }
    }
    times
}
