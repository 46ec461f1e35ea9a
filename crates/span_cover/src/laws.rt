// The definitions seen from the other side.
ghost use Rattle.span_cover.specs.Laws.{NumbersAreStretches};

/// Two addresses that functions hold have the same number exactly where one function holds all from
/// the one to the other.
pub fn numbers_are_stretches()
    ensures { NumbersAreStretches }
{}
