// The definitions seen from the other side.
ghost use Rattle.report_model.specs.ClassLaws.{BranchesAddUp, RanIsOneFunction, RangesAddUp};

/// A range ran exactly where it begins in a function, does not end before that, and lies in the
/// function whole.
pub fn ran_is_one_function()
    ensures { RanIsOneFunction }
{}

/// Each branch is of one class: entries, branches inside and those unmapped for each reason add up
/// to all branches.
pub fn branches_add_up()
    ensures { BranchesAddUp }
{}

/// Each range is of one class.
pub fn ranges_add_up()
    ensures { RangesAddUp }
{}
