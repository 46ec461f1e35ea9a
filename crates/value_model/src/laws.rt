// The definitions seen from the other side.
ghost use Rattle.value_model.specs.Laws.{NoSpellingBeginsAnother, ReadIsSpelled, SpelledIsRead};

/// What spells a value is read as this value, whatever follows it.
pub fn spelled_is_read()
    ensures { SpelledIsRead }
{}

/// What is read as a value begins with a spelling of this value.
pub fn read_is_spelled()
    ensures { ReadIsSpelled }
{}

/// No spelling of a form is a proper prefix of another one of this form.
pub fn no_spelling_begins_another()
    ensures { NoSpellingBeginsAnother }
{}
