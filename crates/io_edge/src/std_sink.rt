ghost use Rattle.std.specs.Prelude.{◌≡◌, false};

use crate::sink::{Sink, WriteFailed};
use std::io::Write;
use std::marker::Model;

/// A writer of std as a sink, such as the standard output.
///
/// A write that takes nothing of some bytes counts as a failed call. `finish` flushes.
#[derive(Drop)]
pub struct StdSink<W> {
    out: W,
    faults: u64,
    finished: bool,
}

impl<W> Model for StdSink<W> {
    ghost use Rattle.io_edge.specs.Outside.{SinkOutside};

    ghost Value = { SinkOutside };

    ghost view = { λ a. record { faults = a.faults; finished = a.finished } };
}

impl<W> StdSink<W> {
    /// A sink that writes to `out`.
    pub fn new(out: W) -> Self
        ensures { result ≡ record { faults = 0; finished = false } }
    {
        StdSink {
            out,
            faults: 0,
            finished: false,
        }
    }
}

impl<W: Write> Sink for StdSink<W> {
    ghost use Rattle.std.specs.Prelude.{None};

    ghost written = { λ _. None };

    ghost faults = { λ s. s.faults };

    ghost finished = { λ s. s.finished };

    fn write(&mut self, bytes: &[u8]) -> Result<usize, WriteFailed> {
        self.finished = false;
        match self.out.write(bytes) {
            Ok(n) if n > 0 || bytes.is_empty() => Ok(n),
            _ => {
                self.faults = self.faults.saturating_add(1);
                Err(WriteFailed)
            }
        }
    }

    fn finish(&mut self) -> Result<(), WriteFailed> {
        self.finished = self.out.flush().is_ok();
        if self.finished {
            Ok(())
        } else {
            self.faults = self.faults.saturating_add(1);
            Err(WriteFailed)
        }
    }
}
