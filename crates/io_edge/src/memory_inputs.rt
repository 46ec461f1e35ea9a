ghost use Rattle.std.specs.Prelude.{◌≡◌, ◌+◌, ◌^◌, ◌<◌, ◌≤◌, [], length, take, min, find, is_some, is_err, IfOk, option_and_then, slice_get};
ghost use Rattle.std.specs.Io.KnownBytes.{ReadConsumes};
ghost use Rattle.io_edge.specs.Faults.{raised, HasCause};
ghost use Rattle.io_edge.specs.Inputs.{Opens};
ghost use Rattle.io_edge.specs.MemoryInputs.{given_of, is_named, is_planned, rest_of, stored, GoesByPlan};

use crate::inputs::{Inputs, OpenFailed, ReadFailed};
use item_lists::Items;
use std::marker::Model;

/// A file of a `MemoryInputs`.
#[derive(Debug, Drop)]
pub struct StoredFile {
    pub name: Items<u8>,
    pub bytes: Items<u8>,
}

/// A call of a `MemoryInputs` that is to fail: the `file`-th `open`, counted from 1, where `call`
/// is 0, and else the `call`-th `read` after it.
#[derive(Clone, Copy, Debug, PartialEq, Eq)]
pub struct Fail {
    pub file: u64,
    pub call: u64,
}

/// Files in memory, which are read in small pieces and fail at chosen calls.
#[derive(Debug, Drop)]
pub struct MemoryInputs {
    files: Vec<StoredFile>,
    piece: usize,
    fail: Vec<Fail>,
    current: Option<usize>,
    at: usize,
    opens: u64,
    reads: u64,
    faults: u64,
}

impl Model for MemoryInputs {
    ghost use Rattle.std.specs.Prelude.{◌<◌};
    ghost use Rattle.io_edge.specs.MemoryInputs.{InputsInMemory, rest_of};

    ghost Value = { InputsInMemory };

    ghost view = { λ a. record {
      files = a.files.items;
      piece = a.piece;
      fails = a.fail.items;
      left = rest_of a.files.items a.current a.at;
      opens = a.opens;
      reads = a.reads;
      faults = a.faults;
    } };

    ghost invariant = { λ a. 0 < a.piece };
}

impl MemoryInputs {
    /// Files that are read in pieces of at most `piece` bytes. Of two files of one name the first
    /// is opened. The calls of `fail` fail, and no other.
    pub fn new(files: Vec<StoredFile>, piece: usize, fail: Vec<Fail>) -> Self
        requires { 0 < piece }
        ensures { result ≡ record {
          files = files.items;
          piece = piece;
          fails = fail.items;
          left = [];
          opens = 0;
          reads = 0;
          faults = 0;
        } }
    {
        MemoryInputs {
            files,
            piece,
            fail,
            current: None,
            at: 0,
            opens: 0,
            reads: 0,
            faults: 0,
        }
    }
}

impl Inputs for MemoryInputs {
    ghost use Rattle.std.specs.Prelude.{Some};
    ghost use Rattle.io_edge.specs.MemoryInputs.{stored};

    ghost store = { λ m. Some (stored m.files) };

    ghost left = { λ m. Some m.left };

    ghost faults = { λ m. m.faults };

    ghost opens = { λ m. m.opens };

    fn open(&mut self, name: &[u8]) -> Result<bool, OpenFailed>
        ensures plan { GoesByPlan (raised self.old.opens) 0 self.old self.new (is_err result) }
        ensures opened { Opens (Some (stored self.old.files)) name.now result (Some self.new.left) }
        ensures store { Some (stored self.new.files) ≡ Some (stored self.old.files) }
        ensures opens { self.new.opens ≡ raised self.old.opens }
        ensures cause { HasCause self.old.faults self.new.faults result }
    {
        self.opens = self.opens.saturating_add(1);
        self.reads = 0;
        self.at = 0;
        self.current = None;
        if is_planned(&self.fail, self.opens, 0) {
            self.faults = self.faults.saturating_add(1);
            return Err(OpenFailed);
        }
        self.current = first_named(&self.files, name);
        Ok(self.current.is_some())
    }

    fn read(&mut self, buf: &mut [u8]) -> Result<usize, ReadFailed>
        ensures plan { GoesByPlan self.old.opens (raised self.old.reads) self.old self.new
            (is_err result) }
        ensures piece { IfOk result (λ n. n ≡ given_of self.old (length buf.old)) }
        ensures within { IfOk result (λ n. n ≤ length buf.old) }
        ensures bytes { ReadConsumes (Some self.old.left) (Some self.new.left) result buf.new }
        ensures store { Some (stored self.new.files) ≡ Some (stored self.old.files) }
        ensures opens { self.new.opens ≡ self.old.opens }
        ensures cause { HasCause self.old.faults self.new.faults result }
    {
        self.reads = self.reads.saturating_add(1);
        if is_planned(&self.fail, self.opens, self.reads) {
            self.faults = self.faults.saturating_add(1);
            return Err(ReadFailed);
        }
        let rest = rest_of(&self.files, self.current, self.at);
        let n = copy_front(&rest[..rest.len().min(self.piece)], buf);
        self.at += n;
        Ok(n)
    }
}

/// Whether a call is to fail.
fn is_planned(fail: &[Fail], file: u64, call: u64) -> bool
    ensures { result ≡ is_planned fail.now file call }
{
    file > 0 && fail.contains(&Fail { file, call })
}

/// The index of the first file of this name.
fn first_named(files: &[StoredFile], name: &[u8]) -> Option<usize>
    ensures file { option_and_then (slice_get files.now) result
        ≡ find (is_named name.now) files.now }
    ensures found { is_some result ≡ is_some (find (is_named name.now) files.now) }
{
    files.iter().position(|file| file.name.as_slice() == name)
}

/// The bytes behind a place of the open file.
fn rest_of(files: &[StoredFile], current: Option<usize>, at: usize) -> &[u8]
    ensures rest { result.now ≡ rest_of files.now current at }
    ensures fits { at + length result.now < 2 ^ 64 }
{
    let Some(file) = current.and_then(|i| files.get(i)) else {
        return &[];
    };
    let bytes = file.bytes.as_slice();
    &bytes[at.min(bytes.len())..]
}

/// Copies as much of the front of `from` as there is room for in `to`, and answers how much.
fn copy_front(from: &[u8], to: &mut [u8]) -> usize
    ensures count { result ≡ min (length from.now) (length to.old) }
    ensures front { take result to.new ≡ take result from.now }
{
    let n = from.len().min(to.len());
    to[..n].copy_from_slice(&from[..n]);
    n
}
