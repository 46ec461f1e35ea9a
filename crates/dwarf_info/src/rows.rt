ghost use Rattle.std.specs.Prelude.{◌≡◌, ◌==◌, [], drop, position, slice_get, length, take};

use crate::attributes::{AttributeList, Attributes};
use crate::unit_entries::UnitEntries;
use dwarf_forms::Value;
use std::alloc::Global;
use std::marker::Model;

/// A wanted attribute of an entry: its name, where its value stands in the file, and the value.
#[derive(Debug, Drop)]
pub struct Found<'a> {
    pub name: u64,
    pub at: u64,
    pub value: Value<'a>,
}

impl<'a> Model for Found<'a> {
    ghost use Rattle.unit_model.specs.Values.{Found};
    ghost use Rattle.dwarf_forms.specs.Meaning.{meaning_of};

    ghost Value = { Found };

    ghost view = { λ f. record { name = f.name; at = f.at; value = meaning_of f.value } };
}

/// An entry: where it stands in the file, how deep it stands among the entries of its unit, its
/// tag, the number of its unit, and its wanted attributes in the order of the abbreviation.
#[derive(Debug, Drop)]
pub struct Entry<'a, 'u> {
    pub at: u64,
    pub depth: u32,
    pub tag: u64,
    pub unit: u32,
    pub found: Attributes<'a, 'u>,
}

impl<'a, 'u> Model for Entry<'a, 'u> {
    ghost use Rattle.unit_model.specs.Entries.{Entry};

    ghost Value = { Entry };

    ghost view = { λ e. record {
      at = e.at;
      depth = e.depth;
      tag = e.tag;
      unit = e.unit;
      found = e.found;
    } };
}

/// A unit that is read: where it begins and ends in the file, its version, whether it is 64-bit
/// DWARF, and which of the entries are its own: `count` of them from the number `first` on.
#[derive(Debug, Drop)]
pub struct Unit {
    pub at: u64,
    pub end: u64,
    pub version: u16,
    pub wide: bool,
    pub first: u32,
    pub count: u32,
}

impl Model for Unit {
    ghost use Rattle.unit_model.specs.Units.{Unit};

    ghost Value = { Unit };

    ghost view = { λ u. record {
      at = u.at;
      end = u.end;
      version = u.version;
      wide = u.wide;
      first = u.first;
      count = u.count;
    } };
}

/// An entry in memory, in 24 bytes. Its attributes stand in the list of all: `count` of them, from
/// `first` on.
#[derive(Clone, Copy, Debug)]
pub(crate) struct EntryRow {
    pub tag: u64,
    pub at: u32,
    pub unit: u32,
    pub first: u32,
    pub depth: u16,
    pub count: u16,
}

impl EntryRow {
    ghost use Rattle.std.specs.Prelude.{◌≡◌};
    ghost use Rattle.dwarf_info.specs.Rows.{IsWithin, entry_of_row};

    /// The entry of this row, whose attributes stand in a list.
    pub fn entry<'a, 'u>(&self, found: &'u AttributeList<'a>) -> Entry<'a, 'u>
        requires { IsWithin found.now self.now }
        ensures { result ≡ entry_of_row found.now self.now }
    {
        let first = self.first as usize;
        let end = first + self.count as usize;
        Entry {
            at: self.at as u64,
            depth: self.depth as u32,
            tag: self.tag,
            unit: self.unit,
            found: found.slice(first, end),
        }
    }
}

/// Entries in memory, with the attributes of all.
#[derive(Debug, Drop)]
pub(crate) struct Entries<'a> {
    pub rows: Vec<EntryRow>,
    pub found: AttributeList<'a>,
}

/// The units that are read so far, with the entries of all, and where each unit that is passed over
/// begins and ends.
#[derive(Debug, Drop)]
pub(crate) struct UnitsRead<'a> {
    pub units: Vec<Unit>,
    pub entries: Entries<'a>,
    pub skipped: Vec<(u64, u64)>,
}

impl<'a> UnitsRead<'a> {
    ghost use Rattle.dwarf_info.specs.Entries.{IsWhole};
    ghost use Rattle.dwarf_info.specs.Units.{units_of};
    ghost use Rattle.unit_model.specs.Units.{no_units};

    /// No units.
    pub fn new(alloc: Global) -> UnitsRead<'a>
        ensures whole { IsWhole result.entries }
        ensures none { units_of result ≡ no_units }
        ensures few { length result.units.items ≡ 0 }
    {
        UnitsRead {
            units: Vec::new(alloc),
            entries: Entries {
                rows: Vec::new(alloc),
                found: AttributeList::new(alloc),
            },
            skipped: Vec::new(alloc),
        }
    }
}

/// The units of a file that are read, the entries of all of them, and where each unit that is
/// passed over begins and ends.
///
/// In memory the entries are rows of one table, and their attributes stand in one list. So an entry
/// is lent, as a value that borrows its attributes.
// Why: Ten million lists would cost more than the file: an entry takes 24 bytes, an attribute 16
// and a text that stands in an entry 16 more. A value keeps that units are few and share their
// entries, so that no caller passes it on as a condition.
#[derive(Debug, Drop)]
pub struct Units<'a> {
    pub(crate) so_far: UnitsRead<'a>,
}

impl<'a> Model for Units<'a> {
    ghost use Rattle.unit_model.specs.Units.{Units};
    ghost use Rattle.dwarf_info.specs.Entries.{IsWhole};
    ghost use Rattle.dwarf_info.specs.Kept.{AreKept};
    ghost use Rattle.dwarf_info.specs.Units.{units_of};

    ghost Value = { Units };

    ghost view = { λ u. units_of u.so_far };

    ghost invariant = { λ u. IsWhole u.so_far.entries × AreKept (units_of u.so_far) };
}

impl<'a> Units<'a> {
    ghost use Rattle.dwarf_info.specs.Found.{FindsEntry};
    ghost use Rattle.dwarf_info.specs.Kept.{AreKept};

    /// The units that are read, in their order. They are at most 2^30, and have at most 2^24
    /// entries together.
    pub fn units(&self) -> &[Unit]
        ensures units { result.now ≡ self.now.units }
        ensures kept { AreKept self.now }
    {
        &self.so_far.units
    }

    /// Where each unit that is passed over begins and ends, as offsets in the file.
    pub fn skipped(&self) -> &[(u64, u64)]
        ensures { result.now ≡ self.now.skipped }
    {
        &self.so_far.skipped
    }

    /// How many entries there are.
    pub fn entry_count(&self) -> usize
        ensures { result ≡ length self.now.entries }
    {
        self.so_far.entries.rows.len()
    }

    /// The entries of a unit, in the order of the file.
    pub fn entries_of(&self, unit: &Unit) -> UnitEntries<'a, '_>
        ensures { result ≡ take unit.now.count (drop unit.now.first self.now.entries) }
    {
        let Entries { rows, found } = &self.so_far.entries;
        let first = rows.len().min(unit.first as usize);
        let behind = &rows[first..];
        let count = behind.len().min(unit.count as usize);
        UnitEntries::new(&behind[..count], found)
    }

    /// The entry of a number among those of all units.
    pub fn entry(&self, number: usize) -> Option<Entry<'a, '_>>
        ensures { result ≡ slice_get self.now.entries number }
    {
        let entries = &self.so_far.entries;
        if number >= entries.rows.len() {
            return None;
        }
        Some(entries.rows[number].entry(&entries.found))
    }

    /// The number of the entry that begins at an offset in the file, where one does.
    pub fn entry_at(&self, at: u64) -> Option<usize>
        ensures { FindsEntry self.now.entries at result }
    {
        let rows = &self.so_far.entries.rows;
        let number = rows.partition_point(|row| (row.at as u64) < at);
        match rows.get(number) {
            Some(row) if row.at as u64 == at => Some(number),
            _ => None,
        }
    }
}
