use crate::attributes::AttributeList;
use crate::rows::{Entry, EntryRow};
use std::marker::Model;

/// The entries of a unit that are left, in the order of the file.
#[derive(Debug, Drop)]
pub struct UnitEntries<'a, 'u> {
    rows: &'u [EntryRow],
    found: &'u AttributeList<'a>,
}

impl<'a, 'u> Model for UnitEntries<'a, 'u> {
    ghost use Rattle.std.specs.Prelude.{List};
    ghost use Rattle.unit_model.specs.Entries.{Entry};
    ghost use Rattle.dwarf_info.specs.Rows.{AreWithin, entries_of};

    ghost Value = { List Entry };

    ghost view = { λ e. entries_of e.found.now e.rows.now };

    ghost invariant = { λ e. AreWithin e.found.now e.rows.now };
}

impl<'a, 'u> UnitEntries<'a, 'u> {
    ghost use Rattle.std.specs.Prelude.{◌≡◌};
    ghost use Rattle.dwarf_info.specs.Rows.{AreWithin, entries_of};

    /// The entries of rows, whose attributes stand in a list.
    pub(crate) fn new(rows: &'u [EntryRow], found: &'u AttributeList<'a>) -> UnitEntries<'a, 'u>
        requires { AreWithin found.now rows.now }
        ensures { result ≡ entries_of found.now rows.now }
    {
        UnitEntries { rows, found }
    }
}

impl<'a, 'u> Iterator for UnitEntries<'a, 'u> {
    type Item = Entry<'a, 'u>;

    ghost use Rattle.std.specs.Iterator.{YieldsFirst, item_count};

    ghost next_gives = { YieldsFirst (λ rest. rest) };

    ghost remaining = { item_count (λ rest. rest) };

    fn next(&mut self) -> Option<Entry<'a, 'u>> {
        let (row, rest) = self.rows.split_first()?;
        self.rows = rest;
        Some(row.entry(self.found))
    }
}
