// The definitions seen from the other side.
ghost use Rattle.reading_laws.specs.Headers.{ReadHeadersAreSpelled, ReadLengthsAreSpelled, SpelledHeadersAreRead, SpelledLengthsAreRead};
ghost use Rattle.reading_laws.specs.Lists.{ListsAreWhole, WholeListsAreRead};
ghost use Rattle.reading_laws.specs.LoadLines.{LoadLinesAreSpelled};
ghost use Rattle.reading_laws.specs.Loads.{LastLoadMoves, LinesAreMovedByThoseBefore, UnloadedIsForeign};
ghost use Rattle.reading_laws.specs.Programs.{ProgramsAreRefusedInOrder, RowsAreByUnit, RowsAreOfTheirProgram, RowsByUnitAreRead};
ghost use Rattle.reading_laws.specs.Ranges.{RangesAreByEntry};
ghost use Rattle.reading_laws.specs.Sequences.{LiveSequencesAscend, RowsCoverAddresses, SequencesAreCut};
ghost use Rattle.reading_laws.specs.Units.{BytesHaveOneUnit, UnitsFillSections};

/// The load lines are those that are spelled so, and they tell the loads that these spell.
pub fn load_lines_are_spelled()
    ensures { LoadLinesAreSpelled }
{}

/// The branches of each line of a branch text are moved by the loads of the lines before it.
pub fn lines_are_moved_by_those_before()
    ensures { LinesAreMovedByThoseBefore }
{}

/// After some lines an address is moved by the load of the last of them whose load holds it.
pub fn last_load_moves()
    ensures { LastLoadMoves }
{}

/// After lines of which none has a load that holds it, an address is foreign.
pub fn unloaded_is_foreign()
    ensures { UnloadedIsForeign }
{}

/// The ranges of a range list are those of its entries, one behind the other, each counted from the
/// last base that an entry before it set, or from the unit's where none did.
pub fn ranges_are_by_entry()
    ensures { RangesAreByEntry }
{}

/// A range list has the entries that stand from its start on, each where the one before ends, up to
/// what ends the list or breaks it there.
pub fn lists_are_whole()
    ensures { ListsAreWhole }
{}

/// Entries that stand so, with what ends or breaks them, are those of the list.
pub fn whole_lists_are_read()
    ensures { WholeListsAreRead }
{}

/// The units of `.debug_info`, those that are read and those that are passed over, fill the section
/// from its start to its end: each begins where the one before ends.
pub fn units_fill_sections()
    ensures { UnitsFillSections }
{}

/// Each byte of `.debug_info` is of one unit, and no unit has a byte elsewhere.
pub fn bytes_have_one_unit()
    ensures { BytesHaveOneUnit }
{}

/// What is read as the length of a unit is spelled so, and as many bytes stand behind it.
pub fn read_lengths_are_spelled()
    ensures { ReadLengthsAreSpelled }
{}

/// What spells the length of a unit is read as this length, where as many bytes stand behind it.
pub fn spelled_lengths_are_read()
    ensures { SpelledLengthsAreRead }
{}

/// What is read as the header of a unit is spelled so.
pub fn read_headers_are_spelled()
    ensures { ReadHeadersAreSpelled }
{}

/// What spells the header of a unit is read as this header.
pub fn spelled_headers_are_read()
    ensures { SpelledHeadersAreRead }
{}

/// The rows of a line program are its own, however many rows stand before them.
pub fn rows_are_of_their_program()
    ensures { RowsAreOfTheirProgram }
{}

/// The rows of a file are those of its units in their order, for each unit those of its program.
pub fn rows_are_by_unit()
    ensures { RowsAreByUnit }
{}

/// Rows of each unit, in the order of the units, are the rows of the file.
pub fn rows_by_unit_are_read()
    ensures { RowsByUnitAreRead }
{}

/// Where line programs are refused, the first unit whose program is refused says the place.
pub fn programs_are_refused_in_order()
    ensures { ProgramsAreRefusedInOrder }
{}

/// The sequences of a line table are what its rows are cut into, each up to the first row that ends
/// one.
pub fn sequences_are_cut()
    ensures { SequencesAreCut }
{}

/// A sequence counts exactly where it has rows, its range is code, and its addresses ascend.
pub fn live_sequences_ascend()
    ensures { LiveSequencesAscend }
{}

/// The row of an address is the one that covers it: from its own address up to that of the row
/// behind it.
pub fn rows_cover_addresses()
    ensures { RowsCoverAddresses }
{}
