// The tables of abbreviations that units refer to.
ghost use Rattle.std.specs.Prelude.{◌≡◌, IfSome};
ghost use Rattle.std.specs.BTreeMap.{get};
ghost use Rattle.std.specs.Option.{option_map};
ghost use Rattle.std.specs.Ordering.{nat_cmp};
ghost use Rattle.refusal.specs.Place.{JudgesUnlessNoMemory};
ghost use Rattle.placed_view.specs.Reader.{IsRead, refused_at, start_of};
ghost use Rattle.unit_model.specs.Table.{table};
ghost use Rattle.dwarf_info.specs.Tables.{IsTableAt, from_offset};

use crate::kinds::{EntryKinds, read_kinds};
use byte_view::{Cur, Part};
use dwarf_abbrev::{Abbrev, read_first};
use refusal::{NoMemory, Stop};
use std::alloc::Global;
use std::collections::BTreeMap;
use std::marker::Model;

/// How many abbreviations, attributes and ends of tables there is room for, beyond as many as the
/// section has bytes.
// Why: Tables that do not overlap have no more abbreviations, attributes and ends than the section
// has bytes. The room is for those that do: that begin within an abbreviation of another one, or
// are a tail that comes before the whole. Each of these is read and kept by itself, and what passes
// the room is want of memory, after less than a second.
const SPARE: usize = 1 << 22;

/// Where a table is: in that of an offset in the file, behind its first abbreviations.
#[derive(Clone, Copy, Debug)]
pub(crate) struct Within {
    pub home: usize,
    pub skip: usize,
}

/// A table of abbreviations, as a tail of one that is kept.
#[derive(Debug, Drop)]
pub(crate) struct Table {
    pub kinds: EntryKinds,
    pub within: Within,
}

impl Table {
    ghost use Rattle.std.specs.Prelude.{◌≡◌};
    ghost use Rattle.std.specs.Option.{option_map};
    ghost use Rattle.unit_model.specs.Abbrev.{find_code};
    ghost use Rattle.dwarf_info.specs.Telling.{shortened};
    ghost use Rattle.dwarf_info.specs.Tails.{list_of};

    /// The abbreviation of a code, with the attributes that tell something.
    pub fn find(&self, code: u64) -> Option<Abbrev<'_>>
        ensures { result ≡ option_map shortened (find_code (list_of self.now) code) }
    {
        self.kinds.find_behind(self.within.skip, code)
    }
}

/// What is noted of an offset in the file.
fn noted(tails: &BTreeMap<usize, Within>, at: usize) -> Option<Within>
    ensures { result ≡ get nat_cmp tails.now at }
{
    tails.get(&at).copied()
}

/// The section of abbreviations, with the tables that were read, by their offsets in the file.
///
/// Many units can refer to one table, which is read once. Tables that do not overlap have at most
/// as many abbreviations and attributes as the section has bytes. Once those that are kept have
/// more, some overlap: of each table that is read then it is noted where each of its abbreviations
/// begins, since units may refer to its tails. Tables that overlap in other ways are read and kept
/// one by one, and what passes `SPARE` is `NoMemory`.
#[derive(Debug, Drop)]
pub(crate) struct Tables<'b> {
    section: Option<Part<'b>>,
    kept: BTreeMap<usize, EntryKinds>,
    tails: BTreeMap<usize, Within>,
    /// What is left of the room, in the units of `EntryKinds::room`.
    room: usize,
}

impl<'b> Model for Tables<'b> {
    ghost use Rattle.std.specs.Prelude.{Option};
    ghost use Rattle.std.specs.Option.{option_map};
    ghost use Rattle.byte_view.specs.Cursor.{Cursor};
    ghost use Rattle.placed_view.specs.Reader.{start_of};
    ghost use Rattle.dwarf_info.specs.Tables.{HoldsTables};
    ghost use Rattle.dwarf_info.specs.Tails.{HoldsTails};

    ghost Value = { Option Cursor };

    ghost view = { λ t. option_map start_of t.section };

    ghost invariant = { λ t. HoldsTables (option_map start_of t.section) t.kept
        × HoldsTails (option_map start_of t.section) t.tails };
}

impl<'b> Tables<'b> {
    ghost use Rattle.dwarf_info.specs.Tails.{IsBehind, IsTail, list_of};

    /// The tables of a section, of which none is kept.
    pub fn new(alloc: Global, section: Option<Part<'b>>) -> Tables<'b>
        ensures { result ≡ option_map start_of section.entry }
    {
        Tables {
            section,
            kept: BTreeMap::new(alloc),
            tails: BTreeMap::new(alloc),
            room: section.map_or(0, |part| part.len).saturating_add(SPARE),
        }
    }

    /// The section.
    pub fn section(&self) -> Option<Part<'b>>
        ensures { option_map start_of result ≡ self.now }
    {
        self.section
    }

    /// Where the table at an offset in the file is.
    fn within(&self, at: usize) -> Within
        ensures { IsBehind self.now result at }
    {
        match noted(&self.tails, at) {
            Some(within) => within,
            None => Within { home: at, skip: 0 },
        }
    }

    /// Takes out the table at an offset in the file, where it is kept.
    fn take(&mut self, at: usize) -> Option<Table>
        ensures same { self.new ≡ self.old }
        ensures table { IfSome result (IsTail self.old at) }
    {
        let within = self.within(at);
        let kinds = self.kept.remove(&within.home)?;
        self.room = self.room.saturating_add(kinds.room());
        Some(Table { kinds, within })
    }

    /// Notes that the table at an offset in the file is a tail of another one.
    fn note(&mut self, at: usize, within: Within) -> Result<(), NoMemory>
        requires { IsBehind self.old within at }
        ensures { self.new ≡ self.old }
    {
        self.tails.insert(at, within)?;
        Ok(())
    }

    /// Notes the tails of the table that stands at the start of a piece, behind one and more of its
    /// first abbreviations, up to `count` or to one that is noted with all behind it.
    // Why: A tail of a kept table is not read again: it is the kept one behind its first
    // abbreviations. No code stands twice in it, so a look-up in the whole serves where it finds a
    // place that is not among the first. Tails are noted only once more is kept than the section
    // has bytes.
    fn note_tails(&mut self, alloc: Global, piece: Part<'_>, count: usize) -> Result<(), NoMemory>
        requires { start_of piece ≡ from_offset self.old piece.at }
        ensures { self.new ≡ self.old }
    {
        let home = piece.at;
        let mut cur = Cur::new(piece);
        for before in 0..count {
            let Ok(Some(_)) = read_first(alloc, &mut cur) else {
                return Ok(());
            };
            let at = cur.at();
            if noted(&self.tails, at).is_some() {
                return Ok(());
            }
            let skip = before + 1;
            self.note(at, Within { home, skip })?;
        }
        Ok(())
    }

    /// Reads the table that stands at the start of a piece of the section.
    fn read(&mut self, alloc: Global, piece: Part<'_>) -> Result<Table, Stop>
        requires { start_of piece ≡ from_offset self.old piece.at }
        ensures same { self.new ≡ self.old }
        ensures read { JudgesUnlessNoMemory (refused_at (table (start_of piece.entry))) result
            (IsTail self.old piece.entry.at) }
    {
        let kinds = read_kinds(alloc, piece)?;
        if self.room < SPARE {
            self.note_tails(alloc, piece, kinds.len())?;
        }
        let within = Within {
            home: piece.at,
            skip: 0,
        };
        Ok(Table { kinds, within })
    }

    /// Takes out the table that stands at the start of a piece of the section, or reads it where it
    /// is not kept. Each table has one home at a time, so that a unit is read in one place.
    ///
    /// # Errors
    /// Those of `read_kinds`.
    pub fn take_or_read(&mut self, alloc: Global, piece: Part<'_>) -> Result<Table, Stop>
        requires { start_of piece ≡ from_offset self.old piece.at }
        ensures same { self.new ≡ self.old }
        ensures read { JudgesUnlessNoMemory (refused_at (table (start_of piece.entry))) result
            (IsTail self.old piece.entry.at) }
    {
        match self.take(piece.at) {
            Some(table) => Ok(table),
            None => self.read(alloc, piece),
        }
    }

    /// Keeps a table, or that of which it is a tail.
    ///
    /// # Errors
    /// `NoMemory` also where there is no room for the table.
    pub fn keep(&mut self, table: Table) -> Result<(), NoMemory>
        requires { IsTableAt self.old table.within.home table.kinds }
        ensures { self.new ≡ self.old }
    {
        let room = table.kinds.room();
        if room > self.room {
            return Err(NoMemory);
        }
        self.kept.insert(table.within.home, table.kinds)?;
        self.room -= room;
        Ok(())
    }
}
