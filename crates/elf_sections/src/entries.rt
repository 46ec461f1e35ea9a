ghost use Rattle.std.specs.Prelude.{◌≡◌, ◌+◌, ◌≤◌, List, ℕ, length};

use std::marker::{Model, PhantomData};

/// What stands in a table of a file one after another: a header of fixed size.
pub(crate) trait TableEntry {
    ghost SIZE: { ℕ };

    /// The entry that a file has at an offset.
    ghost entry_at: { List ℕ → ℕ → Self };

    /// The size of an entry in bytes.
    const SIZE: u16;

    /// The entry at an offset in bytes from the file's start.
    fn at(file: &[u8], at: usize) -> Self
        requires { at + SIZE ≤ length file.now }
        ensures { result ≡ entry_at file.now at };
}

/// Entries of a file that follow one another, in their order: a table of them, and the iterator
/// over those that are left.
#[derive(Debug, Drop)]
pub(crate) struct TableEntries<'a, E: TableEntry> {
    file: &'a [u8],
    at: usize,
    left: usize,
    entry: PhantomData<E>,
}

impl<'a, E: TableEntry> Model for TableEntries<'a, E> {
    ghost use Rattle.std.specs.Prelude.{◌+◌, ◌*◌, ◌≤◌, List, length};
    ghost use Rattle.elf_model.specs.Tables.{entries};

    ghost Value = { List E };

    ghost view = { λ e. entries (E.entry_at e.file.now) E.SIZE e.at e.left };

    ghost invariant = { λ e. e.at + E.SIZE * e.left ≤ length e.file.now };
}

impl<'a, E: TableEntry> TableEntries<'a, E> {
    ghost use Rattle.std.specs.Prelude.{◌*◌, slice_get};
    ghost use Rattle.elf_model.specs.Tables.{entries};

    /// So many entries from an offset in bytes on.
    pub fn new(file: &'a [u8], at: usize, left: usize) -> TableEntries<'a, E>
        requires { at + E.SIZE * left ≤ length file.now }
        ensures { result ≡ entries (E.entry_at file.now) E.SIZE at left }
    {
        TableEntries {
            file,
            at,
            left,
            entry: PhantomData,
        }
    }

    /// The same entries, to go over them.
    pub fn iter(&self) -> TableEntries<'a, E>
        ensures { result ≡ self.now }
    {
        TableEntries::new(self.file, self.at, self.left)
    }

    /// The entry at an index, where there is one.
    #[tactic(auto, using(crate::proofs::EntryLemmas::entry_lemmas))]
    pub fn get(&self, index: usize) -> Option<E>
        ensures { result ≡ slice_get self.now index }
    {
        if index >= self.left {
            return None;
        }
        let passed = usize::from(E::SIZE) * index;
        Some(E::at(self.file, self.at + passed))
    }
}

impl<'a, E: TableEntry> Iterator for TableEntries<'a, E> {
    type Item = E;

    ghost use Rattle.std.specs.Iterator.{YieldsFirst, item_count};

    ghost next_gives = { YieldsFirst (λ rest. rest) };

    ghost remaining = { item_count (λ rest. rest) };

    fn next(&mut self) -> Option<E> {
        if self.left == 0 {
            return None;
        }
        let entry = E::at(self.file, self.at);
        self.at += usize::from(E::SIZE);
        self.left -= 1;
        Some(entry)
    }
}
