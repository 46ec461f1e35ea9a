// The definitions seen from the other side.
ghost use Rattle.member_lists.specs.Laws.{CollectedAreMembers};

/// Collecting entry by entry with frames gives the functions and calls that the depths of the
/// entries say, or the same first bad place.
pub fn collected_are_members()
    ensures { CollectedAreMembers }
{}
