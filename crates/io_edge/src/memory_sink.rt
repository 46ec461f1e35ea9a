ghost use Rattle.std.specs.Prelude.{◌≡◌, ◌<◌, ◌≤◌, [], length, Ok, is_ok, is_err, IfOk, Some, false};
ghost use Rattle.std.specs.Io.KnownBytes.{WriteAppends};
ghost use Rattle.io_edge.specs.Faults.{raised, HasCause};
ghost use Rattle.io_edge.specs.MemorySink.{is_to_fail, taken_of, write_fails, KeepsPlan};
ghost use Rattle.io_edge.specs.Sink.{IsTaken};

use crate::sink::{Sink, WriteFailed};
use refusal::NoMemory;
use std::alloc::Global;
use std::marker::Model;

/// A sink in memory with limited room, which takes small pieces and fails at chosen calls.
#[derive(Debug, Drop)]
pub struct MemorySink {
    bytes: Vec<u8>,
    room: usize,
    piece: usize,
    fail: Vec<u64>,
    writes: u64,
    faults: u64,
    finished: bool,
}

impl Model for MemorySink {
    ghost use Rattle.std.specs.Prelude.{◌<◌, ◌≤◌, length, vec_capacity};
    ghost use Rattle.io_edge.specs.MemorySink.{SinkInMemory};

    ghost Value = { SinkInMemory };

    ghost view = { λ a. record {
      written = a.bytes.items;
      room = a.room;
      piece = a.piece;
      fails = a.fail.items;
      writes = a.writes;
      faults = a.faults;
      finished = a.finished;
    } };

    ghost invariant = { λ a. (0 < a.piece) × (length a.bytes.items ≤ a.room)
        × (a.room ≤ vec_capacity a.bytes) };
}

impl MemorySink {
    /// A sink with room for `room` bytes, which takes at most `piece` bytes a write. The writes
    /// whose numbers are in `fail`, counted from 1, fail, and each write while the room is full; a
    /// 0 in `fail` makes `finish` fail. No other call fails.
    ///
    /// # Errors
    /// There is no memory for the room.
    pub fn new(alloc: Global, room: usize, piece: usize, fail: Vec<u64>) -> Result<Self, NoMemory>
        requires { 0 < piece }
        ensures { IfOk result (λ sink. sink ≡ record {
          written = [];
          room = room;
          piece = piece;
          fails = fail.items;
          writes = 0;
          faults = 0;
          finished = false;
        }) }
    {
        Ok(MemorySink {
            bytes: Vec::with_capacity(alloc, room)?,
            room,
            piece,
            fail,
            writes: 0,
            faults: 0,
            finished: false,
        })
    }

    /// The bytes written so far.
    pub fn written(&self) -> &[u8]
        ensures { result.now ≡ self.now.written }
    {
        &self.bytes
    }
}

impl Sink for MemorySink {
    ghost use Rattle.std.specs.Prelude.{Some};

    ghost written = { λ s. Some s.written };

    ghost faults = { λ s. s.faults };

    ghost finished = { λ s. s.finished };

    fn write(&mut self, bytes: &[u8]) -> Result<usize, WriteFailed>
        ensures plan { is_err result ≡ write_fails self.old (raised self.old.writes) }
        ensures writes { self.new.writes ≡ raised self.old.writes }
        ensures kept { KeepsPlan self.old self.new }
        ensures piece { IfOk result (λ n. n ≡ taken_of self.old (length bytes.now)) }
        ensures taken { IfOk result (λ n. IsTaken n bytes.now) }
        ensures written { WriteAppends (Some self.old.written) (Some self.new.written) result
            bytes.now }
        ensures finished { self.new.finished ≡ false }
        ensures cause { HasCause self.old.faults self.new.faults result }
    {
        self.finished = false;
        self.writes = self.writes.saturating_add(1);
        let room = self.room - self.bytes.len();
        if self.fail.contains(&self.writes) || room == 0 {
            self.faults = self.faults.saturating_add(1);
            return Err(WriteFailed);
        }
        let n = bytes.len().min(self.piece).min(room);
        self.bytes.extend_from_slice(&bytes[..n]).unwrap();
        Ok(n)
    }

    fn finish(&mut self) -> Result<(), WriteFailed>
        ensures plan { is_err result ≡ is_to_fail self.old.fails 0 }
        ensures writes { self.new.writes ≡ self.old.writes }
        ensures kept { KeepsPlan self.old self.new }
        ensures written { Some self.new.written ≡ Some self.old.written }
        ensures finished { self.new.finished ≡ is_ok result }
        ensures cause { HasCause self.old.faults self.new.faults result }
    {
        self.finished = !self.fail.contains(&0);
        if self.finished {
            Ok(())
        } else {
            self.faults = self.faults.saturating_add(1);
            Err(WriteFailed)
        }
    }
}
