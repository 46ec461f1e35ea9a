// The order of work that all commands share.
ghost use Rattle.std.specs.Prelude.{◌≡◌, ◌≤◌, length, IfOk, IfSome};
ghost use Rattle.io_edge.specs.Faults.{raised};
ghost use Rattle.refusal.specs.declared.kind.Kind.TheVariants.{FileTooLarge};
ghost use Rattle.program_edge.specs.Output.{OpensFile, HasFileCause, ReadsFile, TakesFile};

use crate::halt::Halt;
use io_edge::{Inputs, ReadStop, read_whole};
use refusal::{Kind, Place};
use std::alloc::Global;

/// The number of the binary, in each command that has one.
pub const BINARY: u8 = 1;

/// The number of the branch text, in each command that has a binary too.
pub const PERF: u8 = 2;

/// The most bytes of a binary.
pub const MAX_BINARY_BYTES: u64 = 1 << 30;

/// The most bytes of a block text.
pub const MAX_BLOCK_BYTES: u64 = 1 << 28;

/// The most bytes of a repair text, and of what was built.
pub const MAX_REPAIR_BYTES: u64 = 1 << 28;

/// The most bytes of a profile text.
pub const MAX_PROFILE_BYTES: u64 = 1 << 28;

/// Opens the file of the k-th file word.
///
/// # Errors
/// `NoSuchFile` and `ReadFault`.
pub fn open_file<I: Inputs>(inputs: &mut I, k: u8, name: &[u8]) -> Result<(), Halt>
    ensures file { IfSome (I.store inputs.old)
        (λ files. OpensFile (files name.now) k result (I.left inputs.new)) }
    ensures store { I.store inputs.new ≡ I.store inputs.old }
    ensures opens { I.opens inputs.new ≡ raised (I.opens inputs.old) }
    ensures cause { HasFileCause k (I.faults inputs.old) (I.faults inputs.new) result }
{
    match inputs.open(name) {
        Ok(true) => Ok(()),
        Ok(false) => Err(Halt::NoSuchFile(k)),
        Err(_) => Err(Halt::ReadFault(k)),
    }
}

/// The bytes of the file of the k-th file word, at most `limit` of them.
///
/// # Errors
/// `NoSuchFile`, `Refused` with `FileTooLarge` at the limit, `ReadFault` and `NoMemory`.
// Why: A walk over files is a relation of proofs, not a value of the code: that would have to know
// its command and what was read before, which no field of it holds. This says what taking one file
// comes to, and the lemmas of `WalkLemmas` lead from there to the command's exits.
pub fn read_file<I: Inputs>(
    alloc: Global,
    inputs: &mut I,
    k: u8,
    name: &[u8],
    limit: u64,
) -> Result<Vec<u8>, Halt>
    ensures read { TakesFile (ReadsFile k limit) k name.now (I.store inputs.old) result
        (I.opens inputs.old) (I.opens inputs.new) (I.faults inputs.old) (I.faults inputs.new) }
    ensures within { IfOk result (λ bytes. length bytes.items ≤ limit) }
    ensures store { I.store inputs.new ≡ I.store inputs.old }
{
    open_file(inputs, k, name)?;
    let mut bytes = Vec::new(alloc);
    match read_whole(inputs, limit, &mut bytes) {
        Ok(()) => Ok(bytes),
        Err(ReadStop::Fault) => Err(Halt::ReadFault(k)),
        Err(ReadStop::TooLarge) => Err(Halt::Refused(too_large(k, limit))),
        Err(ReadStop::NoMemory) => Err(Halt::NoMemory),
    }
}

/// The place of a file that has more bytes than this.
pub fn too_large(file: u8, limit: u64) -> Place
    ensures { result ≡ record { file = file; at = limit; kind = FileTooLarge } }
{
    Place {
        file,
        at: limit,
        kind: Kind::FileTooLarge,
    }
}
