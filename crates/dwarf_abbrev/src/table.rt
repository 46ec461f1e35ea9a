ghost use Rattle.std.specs.Prelude.{◌<◌, [], length, OnOk};
ghost use Rattle.refusal.specs.Place.{JudgesUnlessNoMemory};
ghost use Rattle.placed_view.specs.Reader.{IsRead, refused_at, start_of};
ghost use Rattle.unit_model.specs.Table.{next_abbrev, table};
ghost use Rattle.dwarf_abbrev.specs.Rows.{ReadsFirst};

use crate::abbrev::Abbrev;
use crate::rows::AbbrevRows;
use byte_view::{Cur, Part};
use refusal::Stop;
use std::alloc::Global;
use std::marker::Model;

/// The abbreviations of a table, in their order.
#[derive(Debug, Drop)]
pub struct Abbrevs {
    rows: AbbrevRows,
}

impl Model for Abbrevs {
    ghost use Rattle.std.specs.Prelude.{List};
    ghost use Rattle.unit_model.specs.Abbrev.{Abbrev};
    ghost use Rattle.dwarf_abbrev.specs.Rows.{table_of, IsWhole};

    ghost Value = { List Abbrev };

    ghost view = { λ t. table_of t.rows };

    ghost invariant = { λ t. IsWhole t.rows };
}

impl Abbrevs {
    ghost use Rattle.std.specs.Prelude.{◌≡◌, ◌==◌, ◌<◌, Some, length, position, slice_get};
    ghost use Rattle.unit_model.specs.Abbrev.{find_code};

    /// How many abbreviations there are.
    pub fn len(&self) -> usize
        ensures { result ≡ length self.now }
    {
        self.rows.rows.len()
    }

    /// The place of the abbreviation of a code.
    pub fn place(&self, code: u64) -> Option<usize>
        ensures { result ≡ position (λ a. a.code == code) self.now }
    {
        self.rows.codes.place(code)
    }

    /// The abbreviation at a place.
    pub fn at(&self, place: usize) -> Abbrev<'_>
        requires { place < length self.now }
        ensures { slice_get self.now place ≡ Some result }
    {
        let row = &self.rows.rows[place];
        Abbrev {
            code: row.code,
            tag: row.tag,
            children: row.children,
            attrs: &self.rows.attrs[row.first..row.end],
        }
    }

    /// The abbreviation of a code.
    pub fn find(&self, code: u64) -> Option<Abbrev<'_>>
        ensures { result ≡ find_code self.now code }
    {
        let place = self.place(code)?;
        Some(self.at(place))
    }
}

/// Reads the table that stands at the start of a piece, up to the code 0 that ends it.
///
/// # Errors
/// The first place where the bytes break the table's form: `Short` and `LebTooLong` at the number,
/// `BadChildren` at the byte, and `CodeTwice` and then `TooManyAbbrevs`, which is at the
/// 1,048,577th abbreviation, at the code.
///
/// Source: DWARF 5, section 7.5.3.
pub fn read_table(alloc: Global, part: Part<'_>) -> Result<Abbrevs, Stop>
    ensures { JudgesUnlessNoMemory (refused_at (table (start_of part.entry))) result
        (IsRead (table (start_of part.entry))) }
{
    let mut cur = Cur::new(part);
    let mut rows = AbbrevRows::new(alloc);
    while rows.read_next(&mut cur)? {}
    Ok(Abbrevs { rows })
}

/// Reads the first abbreviation of the table that stands at a cursor, as a table of its own. Where
/// there is none, the table ends.
///
/// # Errors
/// Those of `read_table` up to there.
pub fn read_first(alloc: Global, cur: &mut Cur<'_>) -> Result<Option<Abbrevs>, Stop>
    ensures read { ReadsFirst result cur.new (next_abbrev [] cur.old) }
    ensures shorter { OnOk result (length cur.new.left < length cur.old.left) }
{
    let mut rows = AbbrevRows::new(alloc);
    if rows.read_next(cur)? {
        return Ok(Some(Abbrevs { rows }));
    }
    Ok(None)
}
