// The definitions seen from the other side: how long the files are, and that what a header says of
// a section is so.
ghost use Rattle.case_model.specs.Laws.{BinariesHaveSizes, SectionsAreWhereTheyAreSaid};

/// The binary of `n` functions has 586 + 69 `n` bytes: 21 + 42 `n` are of `.debug_info`, and
/// 30 + 27 `n` of `.debug_line`.
pub fn binaries_have_sizes()
    ensures { BinariesHaveSizes }
{}

/// The bytes that a section header tells of are those of the section.
pub fn sections_are_where_they_are_said()
    ensures { SectionsAreWhereTheyAreSaid }
{}
