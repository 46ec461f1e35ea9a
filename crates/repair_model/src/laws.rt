// What is written is read, what is read is whole, and what passes its tests is a repair.
ghost use Rattle.repair_model.specs.Laws.{GoodRepairsAreWhole, PassingLinesRepair, RepairsAreApart, WrittenLinesAreRead, WrittenRepairsAreRead};

/// A line that is written is read as that line, if its numbers are within their bits. So no two of
/// them are written alike.
pub fn written_lines_are_read()
    ensures { WrittenLinesAreRead }
{}

/// Two different repairs of a function never have the same lines.
pub fn repairs_are_apart()
    ensures { RepairsAreApart }
{}

/// All lines of a repair pass their tests exactly where it repairs its network: by least counts
/// with prices that fit them and their cost, or by a cut with its sums.
pub fn passing_lines_repair()
    ensures { PassingLinesRepair }
{}

/// Where no line of a repair text of at most 2^63 bytes is bad, it tells all of each function, in
/// order: a weight below 2^44 for each block and edge, and in their place counts and prices, or a
/// cut. The number of a repair's first line is at most 2^63.
pub fn good_repairs_are_whole()
    ensures { GoodRepairsAreWhole }
{}

/// Repairs that are written, one behind the other, are read as these repairs, each with the number
/// of its first line, and no line is bad. Other lines may stand before and behind them, and no name
/// may hold a line feed.
pub fn written_repairs_are_read()
    ensures { WrittenRepairsAreRead }
{}
