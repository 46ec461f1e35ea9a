// Profiles, seen from their texts.
ghost use Rattle.spelling_laws.specs.Lines.{LineTextIsRead};
ghost use Rattle.spelling_laws.specs.Told.{MergeWritesAgain, TextIsReadBack};

/// A line that is written is read as that line.
pub fn line_text_is_read()
    ensures { LineTextIsRead }
{}

/// The text of a profile has no bad place, and says what the profile does: each head, count and
/// target has its number, and there is no other. Lines of a report may stand behind it.
pub fn text_is_read_back()
    ensures { TextIsReadBack }
{}

/// A merge of the text of a profile alone, with weight 1, is that text again.
pub fn merge_writes_again()
    ensures { MergeWritesAgain }
{}
