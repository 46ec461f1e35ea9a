// Totals, seen from the lines below; lines, seen from what was counted; the numbers of a text.
ghost use Rattle.profile_laws.specs.Counts.{LinesAreByCounts};
ghost use Rattle.profile_laws.specs.Once.{NumbersStandOnce};
ghost use Rattle.profile_laws.specs.Totals.{TotalsAddUp};

/// The total of a function or a call is the sum of the counts of its body lines and of the totals
/// of its inlined calls, and stands still at the end of 64 bits.
pub fn totals_add_up()
    ensures { TotalsAddUp }
{}

/// Profiles in which each key, target and head has the same count have the same lines, however
/// their lists of counts are cut and ordered.
pub fn lines_are_by_counts()
    ensures { LinesAreByCounts }
{}

/// A profile text that has no bad place tells each number once: it has no two for one head, for one
/// key, or for one target of a key.
pub fn numbers_stand_once()
    ensures { NumbersStandOnce }
{}
