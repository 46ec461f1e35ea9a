// A branch text that comes in pieces, from its first piece to its end.
ghost use Rattle.std.specs.Prelude.{◌≡◌};
ghost use Rattle.std.specs.List.{flat_map};
ghost use Rattle.text_model.specs.Lines.{lines_of};
ghost use Rattle.refusal.specs.Place.{JudgesUnlessNoMemory};
ghost use Rattle.sample_model.specs.Judging.{first_bad_of_text, judged_lines_of};
ghost use Rattle.branch_stacks.specs.Reader.{new_reading_by};
ghost use Rattle.branch_stacks.specs.Text.{TellsBefore};
ghost use Rattle.branch_counts.specs.Tally.{total_of, Tells};

use crate::reader::Reader;
use branch_counts::Counts;
use refusal::Stop;

/// Feeds each piece of a text to a new reader, and ends the text. The counts have to hold nothing
/// yet.
///
/// However the text is cut, and whatever pieces are empty, the answer and the counts that it leaves
/// are those of the pieces joined: of a reader without loads those of `read_text`.
///
/// # Errors
/// As those of `read_text` on the pieces joined. No piece behind one that is refused is read.
pub fn read_pieces(reader: &mut Reader, pieces: &[&[u8]], counts: &mut Counts) -> Result<(), Stop>
    requires new { reader.old ≡ new_reading_by reader.old.loading reader.old.file }
    requires nothing { total_of counts.old ≡ 0 }
    ensures judged { let text = flat_map (λ piece. piece.now) pieces.now in
        JudgesUnlessNoMemory (first_bad_of_text reader.old.file text) result
        (λ _. Tells reader.old.loading (lines_of text) counts.new) }
    ensures before { let text = flat_map (λ piece. piece.now) pieces.now in
        TellsBefore reader.old.loading reader.old.file (judged_lines_of text) result counts.new }
    ensures ranged { counts.new.with_ranges ≡ counts.old.with_ranges }
{
    counts.keeps();
    for piece in pieces {
        reader.feed(piece, counts)?;
    }
    reader.finish(counts)
}
