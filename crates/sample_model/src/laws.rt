// The definitions seen from the other side.
ghost use Rattle.sample_model.specs.Laws.{BadPlacesStay, DistinctPairsAscend, DistinctPairsAreUnique, EntriesAreSpelled, RangesMoveByTheirEnds};

/// The distinct pairs of a list ascend, and they are the pairs that stand in the list.
pub fn distinct_pairs_ascend()
    ensures { DistinctPairsAscend }
{}

/// No other ascending list has the pairs of a list.
pub fn distinct_pairs_are_unique()
    ensures { DistinctPairsAreUnique }
{}

/// An entry is read exactly as it is spelled: two addresses with a slash between, and behind them
/// nothing, or a slash and any bytes.
pub fn entries_are_spelled()
    ensures { EntriesAreSpelled }
{}

/// What is bad in a text that comes in pieces is its first bad place, however the text goes on.
pub fn bad_places_stay()
    ensures { BadPlacesStay }
{}

/// The moved ranges of a sample are its ranges as they stand, each moved by its two ends: from 0 to
/// 0 where one of them is foreign.
pub fn ranges_move_by_their_ends()
    ensures { RangesMoveByTheirEnds }
{}
