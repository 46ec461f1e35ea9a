// The readings and the spellings agree.
ghost use Rattle.entry_model.specs.Laws.{EntriesStandInOrder, ReadEntriesAreSpelled, ReadTablesAreSpelled, SpelledEntriesAreRead, SpelledTablesAreRead, UnitsShareEntries};

/// What is read as a table is spelled so, no code stands in it twice, and it is not too long.
pub fn read_tables_are_spelled()
    ensures { ReadTablesAreSpelled }
{}

/// What spells a table in which no code stands twice is read as this table, if it is not too long.
pub fn spelled_tables_are_read()
    ensures { SpelledTablesAreRead }
{}

/// What is read as the entries of a unit is spelled so up to the unit's end, and none stands too
/// deep or is one too many.
pub fn read_entries_are_spelled()
    ensures { ReadEntriesAreSpelled }
{}

/// What spells entries up to a unit's end is read as these, if none stands too deep or is one too
/// many.
pub fn spelled_entries_are_read()
    ensures { SpelledEntriesAreRead }
{}

/// The entries that are read of `.debug_info` stand in the order of the file, and within the
/// section.
pub fn entries_stand_in_order()
    ensures { EntriesStandInOrder }
{}

/// The units that are read of `.debug_info` have as many entries together as there are, and these
/// are not too many.
pub fn units_share_entries()
    ensures { UnitsShareEntries }
{}
