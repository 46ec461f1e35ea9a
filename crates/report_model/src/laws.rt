// The definitions seen from the other side.
ghost use Rattle.report_model.specs.Laws.{EachBranchOnce, EachRangeOnce};

/// Each sampled branch is counted once: among the entries, inside, or in one line of those
/// unmapped.
pub fn each_branch_once()
    ensures { EachBranchOnce }
{}

/// Each sampled range is counted once.
pub fn each_range_once()
    ensures { EachRangeOnce }
{}
