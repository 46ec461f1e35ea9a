// What a binary's map tells, as a profile asks it.
ghost use Rattle.profile_maker.specs.Laws.{BinariesShowPrograms, KeyWaysAreTold};

/// The map of a binary shows the program in it, as far as it was asked for: places, functions, what
/// is entered, and the keys and factors that its segments tell.
pub fn binaries_show_programs()
    ensures { BinariesShowPrograms }
{}

/// Whatever is counted of a binary is the way of a key: the premise under which totals add up
/// (`profile_laws`).
pub fn key_ways_are_told()
    ensures { KeyWaysAreTold }
{}
