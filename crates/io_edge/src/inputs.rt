ghost use Rattle.std.specs.Prelude.{◌≡◌, ◌≤◌, ℕ, List, length, IfOk, Option};
ghost use Rattle.std.specs.Io.KnownBytes.{ReadConsumes};
ghost use Rattle.io_edge.specs.Faults.{raised, HasCause};
ghost use Rattle.io_edge.specs.Inputs.{Store, Opens};

/// A file could not be opened, for another cause than that it is missing.
#[derive(Clone, Copy, Debug, PartialEq, Eq)]
pub struct OpenFailed;

/// Bytes of the open file could not be read.
#[derive(Clone, Copy, Debug, PartialEq, Eq)]
pub struct ReadFailed;

/// A store of files that are read by name, one at a time.
///
/// An implementation starts with no file open and with its counts at 0. Both counts stand still at
/// 2^64 - 1.
pub trait Inputs {
    /// The store's files by name, where the type tells them.
    ghost store: { Self → Option Store };

    /// The bytes left of the open file, where the type tells them; nothing is left where no file is
    /// open.
    ghost left: { Self → Option (List ℕ) };

    /// How many calls have failed.
    ghost faults: { Self → ℕ };

    /// How many times `open` has been called.
    ghost opens: { Self → ℕ };

    /// Opens the file of this name in place of the one that is open, and answers whether there is
    /// such a file. All its bytes are then left.
    ///
    /// # Errors
    /// Only where the count of faults rises; nothing is open then.
    fn open(&mut self, name: &[u8]) -> Result<bool, OpenFailed>
        ensures opened { Opens (store self.old) name.now result (left self.new) }
        ensures store { store self.new ≡ store self.old }
        ensures opens { opens self.new ≡ raised (opens self.old) }
        ensures cause { HasCause (faults self.old) (faults self.new) result };

    /// Reads the next bytes of the open file into the front of `buf`, and answers how many: 0
    /// exactly where nothing is left or `buf` is empty. They are no longer left.
    ///
    /// # Errors
    /// Only where the count of faults rises; what is left stays as it was.
    fn read(&mut self, buf: &mut [u8]) -> Result<usize, ReadFailed>
        ensures within { IfOk result (λ n. n ≤ length buf.old) }
        ensures bytes { ReadConsumes (left self.old) (left self.new) result buf.new }
        ensures store { store self.new ≡ store self.old }
        ensures opens { opens self.new ≡ opens self.old }
        ensures cause { HasCause (faults self.old) (faults self.new) result };
}
