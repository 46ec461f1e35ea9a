// The definitions seen from the other side.
ghost use Rattle.line_model.specs.Laws.{ReadIsSpelled, ReadRowsAreRows, RowsAreRead, SpelledIsRead};

/// What spells an operation is read as this operation, whatever follows it.
pub fn spelled_is_read()
    ensures { SpelledIsRead }
{}

/// What is read as an operation begins with a spelling of it.
pub fn read_is_spelled()
    ensures { ReadIsSpelled }
{}

/// The rows that are read of a program are those of its operations.
pub fn read_rows_are_rows()
    ensures { ReadRowsAreRows }
{}

/// The rows of a program's operations are read, where the last sequence is ended and there are not
/// too many.
pub fn rows_are_read()
    ensures { RowsAreRead }
{}
