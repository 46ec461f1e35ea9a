// What is said on the error output.
ghost use Rattle.std.specs.Prelude.{◌≡◌, ◌≤◌, length, take};
ghost use Rattle.pgo_run.specs.Status.{text_of};

use program_edge::{LINE_ROOM, Status};

/// The line for words that spell no command.
// Why: The line does not say what was wrong with the words: its text is fixed for scripts.
const USAGE: &[u8] =
    b"usage: pgo counts, where, profile, build, check, make, merge, summary or lift\n";

/// Writes the status's line for the error output to the front of `buf`, with its line feed, and
/// answers how many bytes it has: none for `Done`. No memory is taken.
pub fn status_line(status: &Status, buf: &mut [u8; LINE_ROOM]) -> usize
    ensures within { result ≤ LINE_ROOM }
    ensures length { result ≡ length (text_of status.now) }
    ensures text { take result buf.new ≡ text_of status.now }
{
    program_edge::status_line(USAGE, status, buf)
}
