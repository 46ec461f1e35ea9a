ghost use Rattle.std.specs.Prelude.{◌≡◌, ℕ, Bool, false, List, is_ok, IfOk, Option};
ghost use Rattle.std.specs.Io.KnownBytes.{WriteAppends};
ghost use Rattle.io_edge.specs.Faults.{HasCause};
ghost use Rattle.io_edge.specs.Sink.{IsTaken};

/// Bytes could not be written, or the output could not be finished.
#[derive(Clone, Copy, Debug, PartialEq, Eq)]
pub struct WriteFailed;

/// Where bytes are written, piece by piece, and then finished.
///
/// An implementation starts with nothing written, unfinished, and with its count at 0, which stands
/// still at 2^64 - 1.
pub trait Sink {
    /// The bytes written, where the type tells them.
    ghost written: { Self → Option (List ℕ) };

    /// How many calls have failed.
    ghost faults: { Self → ℕ };

    /// Whether the last call was a `finish` that succeeded.
    ghost finished: { Self → Bool };

    /// Writes the first of `bytes`, at least one unless `bytes` is empty, and answers how many.
    ///
    /// # Errors
    /// Only where the count of faults rises; nothing is written then.
    fn write(&mut self, bytes: &[u8]) -> Result<usize, WriteFailed>
        ensures taken { IfOk result (λ n. IsTaken n bytes.now) }
        ensures written { WriteAppends (written self.old) (written self.new) result bytes.now }
        ensures finished { finished self.new ≡ false }
        ensures cause { HasCause (faults self.old) (faults self.new) result };

    /// Ends the output: nothing that was written is held back any longer. What that means is the
    /// type's own word, as a flush is that of a writer of the system.
    ///
    /// # Errors
    /// Only where the count of faults rises; the sink is not finished then.
    fn finish(&mut self) -> Result<(), WriteFailed>
        ensures written { written self.new ≡ written self.old }
        ensures finished { finished self.new ≡ is_ok result }
        ensures cause { HasCause (faults self.old) (faults self.new) result };
}
