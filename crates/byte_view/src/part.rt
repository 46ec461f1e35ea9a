ghost use Rattle.std.specs.Prelude.{◌+◌, ◌≤◌, length};

/// A piece of a file, whole inside it.
///
/// `at` is an offset in `file`, and the piece is the `len` bytes from there.
#[derive(Clone, Copy, Debug)]
pub struct Part<'a> {
    pub file: &'a [u8],
    pub at: usize,
    pub len: usize,
    pub ghost inside: { at + len ≤ length file.now },
}

impl<'a> Part<'a> {
    ghost use Rattle.std.specs.Prelude.{◌≡◌};
    ghost use Rattle.byte_view.specs.Part.{bytes_of_part};

    /// The bytes of the piece.
    pub fn bytes(self) -> &'a [u8]
        ensures { result.now ≡ bytes_of_part self.entry }
    {
        &self.file[self.at..self.at + self.len]
    }
}
