// Counts after one branch was added.
ghost use Rattle.std.specs.Prelude.{◌≡◌, ◌≢◌, ◌+◌, ◌<◌, ◌≤◌, ◌↔◌, ℕ, IsErrOf, IsTrue, OnErr, OnOk};
ghost use Rattle.sample_model.specs.Limits.{max_branches};
ghost use Rattle.branch_counts.specs.Table.{times_in};
ghost use Rattle.branch_counts.specs.Tally.{total_of};

use branch_counts::{Counts, CountsStop};

/// Adds `times` to the count of a branch and to the total. Other branches and all ranges stay.
/// A total past the limit is `TooMany`, and a refusal leaves the counts as they were.
pub fn count_branch(counts: &mut Counts, from: u64, to: u64, times: u64) -> Result<(), CountsStop>
    requires { 0 < times }
    ensures more { OnOk result (times_in counts.new.branches (from, to)
        ≡ times_in counts.old.branches (from, to) + times) }
    ensures others { OnOk result ((other : ℕ × ℕ) → other ≢ (from, to)
        → times_in counts.new.branches other ≡ times_in counts.old.branches other) }
    ensures total { OnOk result (total_of counts.new ≡ total_of counts.old + times) }
    ensures ranges { counts.new.ranges ≡ counts.old.ranges }
    ensures with_ranges { counts.new.with_ranges ≡ counts.old.with_ranges }
    ensures past { max_branches < total_of counts.old + times
        → IsErrOf result CountsStop.TooMany }
    ensures within { total_of counts.old + times ≤ max_branches
        → result ≢ Err CountsStop.TooMany }
    ensures refused { OnErr result (counts.new ≡ counts.old) }
{
    counts.add_branch(from, to, times)
}

/// Counts a first branch, up to the limit of a text.
pub fn counts_a_first_branch(counts: &mut Counts, from: u64, to: u64, times: u64) -> bool
    requires none { total_of counts.old ≡ 0 }
    requires some { 0 < times }
    requires within { times ≤ max_branches }
    ensures { IsTrue result }
{
    counts.add_branch(from, to, times).is_ok()
}
