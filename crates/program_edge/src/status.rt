ghost use Rattle.std.specs.Prelude.{◌≡◌, ◌+◌, ◌≤◌, ◌<◌, [], ◌∷◌, ◌++◌, length, take};
ghost use Rattle.text_model.specs.Numbers.{decimal_text};
ghost use Rattle.program_edge.specs.Status.{code_of, line_of};

use itoa::Buffer;
use refusal::Place;

/// The room for the line of a status, in bytes.
pub const LINE_ROOM: usize = 256;

/// How a command ended.
#[derive(Clone, Copy, Debug, PartialEq, Eq)]
pub enum Status {
    /// The whole output was written.
    Done,
    /// The first line, from 1, of a repair text or of what was built that fails its test.
    CheckFailed(u64),
    /// The words spell no command.
    Usage,
    /// The file word, from 1, for which there is no file.
    NoSuchFile(u8),
    /// The first bad place of the files.
    Refused(Place),
    /// The file word, from 1, whose file could not be read.
    ReadFault(u8),
    /// The output could not be written whole.
    WriteFault,
    /// Memory was refused.
    NoMemory,
}

impl Status {
    /// The program's exit status: 0 to 7, in the order of the variants.
    pub fn code(&self) -> u8
        ensures { result ≡ code_of self.now }
    {
        match self {
            Status::Done => 0,
            Status::CheckFailed(_) => 1,
            Status::Usage => 2,
            Status::NoSuchFile(_) => 3,
            Status::Refused(_) => 4,
            Status::ReadFault(_) => 5,
            Status::WriteFault => 6,
            Status::NoMemory => 7,
        }
    }
}

/// Writes the status's line for the error output to the front of `buf`, with its line feed, and
/// answers how many bytes it has: none for `Done`. `usage` is the program's line for words that
/// spell no command. No memory is taken.
pub fn status_line(usage: &[u8], status: &Status, buf: &mut [u8; LINE_ROOM]) -> usize
    requires { length usage.now ≤ LINE_ROOM }
    ensures within { result ≤ LINE_ROOM }
    ensures length { result ≡ length (line_of usage.now status.now) }
    ensures text { take result buf.new ≡ line_of usage.now status.now }
{
    match status {
        Status::Done => 0,
        Status::CheckFailed(line) => put_numbered(buf, b"check failed at line ", *line),
        Status::Usage => put(buf, 0, usage),
        Status::NoSuchFile(file) => put_numbered(buf, b"no such file: ", u64::from(*file)),
        Status::Refused(place) => put_place(buf, place),
        Status::ReadFault(file) => put_numbered(buf, b"read fault: file ", u64::from(*file)),
        Status::WriteFault => put(buf, 0, b"write fault\n"),
        Status::NoMemory => put(buf, 0, b"no memory\n"),
    }
}

/// Puts bytes at a place of the buffer, and answers where they end.
fn put(buf: &mut [u8; LINE_ROOM], at: usize, bytes: &[u8]) -> usize
    requires { at + length bytes.now ≤ LINE_ROOM }
    ensures end { result ≡ at + length bytes.now }
    ensures front { take result buf.new ≡ take at buf.old ++ bytes.now }
{
    let end = at + bytes.len();
    buf[at..end].copy_from_slice(bytes);
    end
}

/// Puts a number's decimal digits, of which there are at most 20; 20 places more are left behind
/// them.
fn put_number(buf: &mut [u8; LINE_ROOM], at: usize, n: u64) -> usize
    requires { at ≤ 216 }
    ensures end { result ≡ at + length (decimal_text n) }
    ensures short { result ≤ at + 20 }
    ensures front { take result buf.new ≡ take at buf.old ++ decimal_text n }
{
    put(buf, at, Buffer::new().format(n).as_bytes())
}

/// Puts a line of some words, fewer than 30 bytes, and a number.
fn put_numbered(buf: &mut [u8; LINE_ROOM], words: &[u8], n: u64) -> usize
    requires { length words.now < 30 }
    ensures within { result ≤ LINE_ROOM }
    ensures end { result ≡ length words.now + length (decimal_text n) + 1 }
    ensures front { take result buf.new ≡ words.now ++ decimal_text n ++ 10 ∷ [] }
{
    let end = put(buf, 0, words);
    let end = put_number(buf, end, n);
    put(buf, end, b"\n")
}

/// Puts the line of a refusal.
fn put_place(buf: &mut [u8; LINE_ROOM], place: &Place) -> usize
    ensures within { result ≤ LINE_ROOM }
    ensures end { result ≡ length (line_of [] (Status.Refused place.now)) }
    ensures front { take result buf.new ≡ line_of [] (Status.Refused place.now) }
{
    let end = put(buf, 0, b"refused: file ");
    let end = put_number(buf, end, u64::from(place.file));
    let end = put(buf, end, b" at ");
    let end = put_number(buf, end, place.at);
    let end = put(buf, end, b": ");
    let end = put(buf, end, place.kind.word());
    put(buf, end, b"\n")
}
