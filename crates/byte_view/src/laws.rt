// The definitions seen from the other side: what holds of spellings, and of what a cursor passes.
ghost use Rattle.std.specs.Prelude.{ℕ};
ghost use Rattle.byte_view.specs.Laws.{IsPrefixFree, IsReadAsSpelled};
ghost use Rattle.byte_view.specs.Laws.{IsReadBack, PassesBytesOfFile};
ghost use Rattle.byte_view.specs.Reading.{SpellsField, SpellsRun, SpellsText};
ghost use Rattle.byte_view.specs.Reading.{SpellsSleb, SpellsUleb};
ghost use Rattle.byte_view.specs.Reading.{field_at, run_at, sleb_at, text_at, uleb_at};

/// What spells a value is read as this value, whatever follows it.
pub fn spelled_is_read()
    ensures field { (size : ℕ) → IsReadBack (SpellsField size) (field_at size) }
    ensures run { (size : ℕ) → IsReadBack (SpellsRun size) (run_at size) }
    ensures text { IsReadBack SpellsText text_at }
    ensures uleb { IsReadBack SpellsUleb uleb_at }
    ensures sleb { IsReadBack SpellsSleb sleb_at }
{}

/// What is read as a value begins with a spelling of this value.
pub fn read_is_spelled()
    ensures field { (size : ℕ) → IsReadAsSpelled (SpellsField size) (field_at size) }
    ensures run { (size : ℕ) → IsReadAsSpelled (SpellsRun size) (run_at size) }
    ensures text { IsReadAsSpelled SpellsText text_at }
    ensures uleb { IsReadAsSpelled SpellsUleb uleb_at }
    ensures sleb { IsReadAsSpelled SpellsSleb sleb_at }
{}

/// No spelling of a value is a proper prefix of another.
pub fn no_spelling_begins_another()
    ensures field { (size : ℕ) → IsPrefixFree (SpellsField size) }
    ensures run { (size : ℕ) → IsPrefixFree (SpellsRun size) }
    ensures text { IsPrefixFree SpellsText }
    ensures uleb { IsPrefixFree SpellsUleb }
    ensures sleb { IsPrefixFree SpellsSleb }
{}

/// What a cursor passes are the file's bytes from its old place to its new one.
pub fn passed_bytes_are_the_files()
    ensures { PassesBytesOfFile }
{}
