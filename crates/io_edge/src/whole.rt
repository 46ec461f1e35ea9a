ghost use Rattle.std.specs.Prelude.{◌≡◌, ◌+◌, ◌<◌, ◌≤◌, ◌++◌, length, is_ok, IfSome, OnOk, OnErr, IsErrOf, Some, []};
ghost use Rattle.std.specs.Io.{StartsWith};
ghost use Rattle.std.specs.Io.KnownBytes.{Appends};
ghost use Rattle.io_edge.specs.Faults.{HasCause, HasCauseWhere};
ghost use Rattle.io_edge.specs.Sink.{AppendsPrefix};
ghost use Rattle.io_edge.specs.Whole.{tells_read_fault};

use crate::inputs::{Inputs, ReadFailed};
use crate::sink::{Sink, WriteFailed};
use std::alloc::AllocError;

/// The most bytes that one read gives.
const PIECE: usize = 1 << 16;

/// An output could not be written whole.
#[derive(Clone, Copy, Debug, PartialEq, Eq)]
pub struct WriteFault;

impl From<WriteFailed> for WriteFault {
    fn from(_: WriteFailed) -> Self {
        WriteFault
    }
}

/// Why a file was not read whole.
#[derive(Clone, Copy, Debug, PartialEq, Eq)]
pub enum ReadStop {
    /// A read failed.
    Fault,
    /// More bytes were left than the limit.
    TooLarge,
    /// Memory was refused.
    NoMemory,
}

impl From<ReadFailed> for ReadStop {
    ghost use Rattle.io_edge.specs.declared.whole.ReadStop.TheVariants.{Fault};

    ghost from_gives = { λ _ e. e ≡ Fault };

    fn from(_: ReadFailed) -> Self {
        ReadStop::Fault
    }
}

impl From<AllocError> for ReadStop {
    ghost use Rattle.io_edge.specs.declared.whole.ReadStop.TheVariants.{NoMemory};

    ghost from_gives = { λ _ e. e ≡ NoMemory };

    fn from(_: AllocError) -> Self {
        ReadStop::NoMemory
    }
}

/// Writes all of `bytes` and finishes the output.
///
/// # Errors
/// Only where the sink's count of faults rises; some of the first of `bytes` may have been written
/// then, and the sink is not finished.
pub fn write_all<O: Sink>(out: &mut O, bytes: &[u8]) -> Result<(), WriteFault>
    ensures written { OnOk result (Appends (O.written out.old) (O.written out.new) bytes.now) }
    ensures finished { O.finished out.new ≡ is_ok result }
    ensures prefix { OnErr result
        (AppendsPrefix (O.written out.old) (O.written out.new) bytes.now) }
    ensures cause { HasCause (O.faults out.old) (O.faults out.new) result }
{
    let mut rest = bytes;
    while !rest.is_empty() {
        let n = out.write(rest)?;
        rest = &rest[n..];
    }
    out.finish()?;
    Ok(())
}

/// Appends all bytes that are left of the open file to `into`, which are at most `limit`.
///
/// # Errors
/// `Fault` only where the inputs' count of faults rises, `TooLarge` exactly where more than `limit`
/// bytes were left and no read failed. `into` may have grown then.
pub fn read_whole<I: Inputs>(inputs: &mut I, limit: u64, into: &mut Vec<u8>) -> Result<(), ReadStop>
    ensures read { OnOk result (IfSome (I.left inputs.old) (λ bytes.
        (into.new.items ≡ into.old.items ++ bytes) × (length bytes ≤ limit)
        × (I.left inputs.new ≡ Some []))) }
    ensures within { OnOk result (length into.new.items ≤ length into.old.items + limit) }
    ensures too_large { IsErrOf result ReadStop.TooLarge →
        IfSome (I.left inputs.old) (λ bytes. limit < length bytes) }
    ensures grows { StartsWith into.new.items into.old.items }
    ensures store { I.store inputs.new ≡ I.store inputs.old }
    ensures opens { I.opens inputs.new ≡ I.opens inputs.old }
    ensures cause { HasCauseWhere tells_read_fault
        (I.faults inputs.old) (I.faults inputs.new) result }
{
    let mut piece = [0; PIECE];
    let mut room = limit;
    loop {
        let n = inputs.read(&mut piece)?;
        if n == 0 {
            return Ok(());
        }
        room = room.checked_sub(n as u64).ok_or(ReadStop::TooLarge)?;
        into.extend_from_slice(&piece[..n])?;
    }
}
