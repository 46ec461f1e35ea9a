// The definitions seen from the other side: what is printed is read, a number is the sum of
// its digits, and lines and fields are the text again.
ghost use Rattle.text_model.specs.Laws.{ContainsIsPart, FieldsJoin, FieldsSplit, LinesJoin, LinesSplit};
ghost use Rattle.text_model.specs.Laws.{DecimalTextIsRead, HexTextIsRead, SignedTextIsRead};
ghost use Rattle.text_model.specs.Laws.{CapitalsSpellTheSame, LeadingZerosSpellNothing, NumbersAreByPlace};

/// Lines with a line feed behind each, and then a rest without one, are the text.
pub fn lines_join()
    ensures { LinesJoin }
{}

/// However a text is made of lines with a line feed behind each, and then a rest without one, these
/// are its lines.
pub fn lines_split()
    ensures { LinesSplit }
{}

/// Blanks, fields with blanks behind each, and then a rest without a blank, are the line.
pub fn fields_join()
    ensures { FieldsJoin }
{}

/// However a line is made of blanks, fields with blanks behind each, and then a rest without a
/// blank, these are its fields.
pub fn fields_split()
    ensures { FieldsSplit }
{}

/// A text contains a needle exactly where it is a front, the needle and a rest.
pub fn contains_is_part()
    ensures { ContainsIsPart }
{}

/// A number is the sum over its digits of their worth at their places, whether they are capital or
/// small, and whatever zeros stand in front.
pub fn numbers_are_by_place()
    ensures places { NumbersAreByPlace }
    ensures capitals { CapitalsSpellTheSame }
    ensures zeros { LeadingZerosSpellNothing }
{}

/// A printed decimal number is read as that number.
pub fn decimal_text_is_read()
    ensures { DecimalTextIsRead }
{}

/// A printed hexadecimal number is read as that number.
pub fn hex_text_is_read()
    ensures { HexTextIsRead }
{}

/// A printed signed number is read as that number.
pub fn signed_text_is_read()
    ensures { SignedTextIsRead }
{}
