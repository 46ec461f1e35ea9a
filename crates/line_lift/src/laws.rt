// What is lifted by numbers, seen by names.
ghost use Rattle.line_lift.specs.Laws.{LinesAreLifted};

/// What is lifted by the numbers of names and keys is what the definition lifts, where segments
/// tell the way of each address, and functions, repairs and numbers are those of their texts.
pub fn lines_are_lifted()
    ensures { LinesAreLifted }
{}
