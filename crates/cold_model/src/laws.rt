// The definitions seen from the other side.
ghost use Rattle.cold_model.specs.Laws.{LinesWithAreByCounts, NoneBesides};

/// Without keys that have lines besides, the lines are those of the profile.
pub fn without_more_keys_lines_are_as_ever()
    ensures { NoneBesides }
{}

/// Profiles that count the same have the same lines, whichever keys have lines besides.
pub fn lines_with_are_by_counts()
    ensures { LinesWithAreByCounts }
{}
