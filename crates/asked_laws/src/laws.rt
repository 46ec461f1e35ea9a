// What a command asks of a program.
ghost use Rattle.asked_laws.specs.Laws.{BuildsAskNoMore, ColdLinesAskNoMore, LiftsAskNoMore, ProfilesAskNoMore, SummariesAskNoMore};

/// Programs that answer samples alike have one profile and one report.
pub fn profiles_ask_no_more()
    ensures { ProfilesAskNoMore }
{}

/// What is built of the one and of functions in whose blocks they have the same places is built of
/// the other.
pub fn builds_ask_no_more()
    ensures { BuildsAskNoMore }
{}

/// A summary of the one is a summary of the other.
pub fn summaries_ask_no_more()
    ensures { SummariesAskNoMore }
{}

/// Repaired counts are held by the same ways.
pub fn lifts_ask_no_more()
    ensures { LiftsAskNoMore }
{}

/// Lines that never ran are the same where each address has the same place, or in both programs
/// none whose function stands in the profile.
pub fn cold_lines_ask_no_more()
    ensures { ColdLinesAskNoMore }
{}
