// Sums by numbers, seen as profiles by names.
ghost use Rattle.profile_merge.specs.Laws.{FirstOverIsFirstBad, LinesAreOfSums, NothingIsSummed, RaisedSumsCountBoth, SumsAreByCounts, SumsStayWithMore};

/// New sums are those of a profile in which nothing was counted.
pub fn nothing_is_summed()
    ensures { NothingIsSummed }
{}

/// Sums are those of the same profile when names and keys are added.
pub fn sums_stay_with_more()
    ensures { SumsStayWithMore }
{}

/// Sums to which a profile was added are those of both, the added one with its weight.
pub fn raised_sums_count_both()
    ensures { RaisedSumsCountBoth }
{}

/// The first number that is too large for its sum stands where the definition has its first bad
/// place.
pub fn first_over_is_first_bad()
    ensures { FirstOverIsFirstBad }
{}

/// What sums say was counted has the lines of the profile that they are of.
pub fn lines_are_of_sums()
    ensures { LinesAreOfSums }
{}

/// Sums are those of any profile that counts the same.
pub fn sums_are_by_counts()
    ensures { SumsAreByCounts }
{}
