// A table in memory, while it is read.
ghost use Rattle.std.specs.Prelude.{◌≡◌, ◌++◌, ◌∷◌, [], ◌<◌, ◌≤◌, length, None, OnOk};
ghost use Rattle.placed_view.specs.Reader.{Gives};
ghost use Rattle.unit_model.specs.Table.{children_byte, abbrev_of, next_abbrev};
ghost use Rattle.dwarf_abbrev.specs.Codes.{place_of};

use crate::attr::{Attr, read_attrs};
use crate::codes::Codes;
use byte_view::Cur;
use placed_view::{byte, uleb};
use refusal::{Kind, NoMemory, Place, Stop, refuse_if};
use std::alloc::Global;

/// The most abbreviations of a table.
const MAX_ABBREVS: usize = 1 << 20;

/// An abbreviation whose attributes stand in a table's list of all, from `first` up to `end`.
#[derive(Clone, Copy, Debug)]
pub(crate) struct AbbrevRow {
    pub code: u64,
    pub tag: u64,
    pub children: bool,
    pub first: usize,
    pub end: usize,
}

/// The rows of a table's abbreviations, their codes, and the attributes of all.
#[derive(Debug, Drop)]
pub(crate) struct AbbrevRows {
    pub rows: Vec<AbbrevRow>,
    pub codes: Codes,
    pub attrs: Vec<Attr>,
}

/// Whether children may follow an entry.
#[tactic(auto, unfolding(unit_model::specs::Table::children_byte))]
fn read_children(cur: &mut Cur<'_>) -> Result<bool, Place>
    ensures read { Gives (λ b. b) result cur.new (children_byte cur.old) }
    ensures shorter { OnOk result (length cur.new.left < length cur.old.left) }
{
    let at = cur.at();
    let byte = byte(cur)?;
    refuse_if(byte > 1, Place::in_binary(at, Kind::BadChildren))?;
    Ok(byte == 1)
}

impl AbbrevRows {
    ghost use Rattle.dwarf_abbrev.specs.Rows.{table_of, IsWhole, AddsRow, ReadsAbbrev, ReadsNext};

    /// No abbreviations.
    pub fn new(alloc: Global) -> AbbrevRows
        ensures whole { IsWhole result }
        ensures table { table_of result ≡ [] }
    {
        AbbrevRows {
            rows: Vec::new(alloc),
            codes: Codes::new(alloc),
            attrs: Vec::new(alloc),
        }
    }

    /// Adds a row whose code is new.
    fn add(&mut self, row: AbbrevRow) -> Result<(), NoMemory>
        requires fresh { place_of self.old.codes row.code ≡ None }
        requires positive { 0 < row.code }
        ensures { OnOk result (AddsRow self.old self.new row) }
    {
        self.codes.push(row.code)?;
        self.rows.push(row)?;
        Ok(())
    }

    /// Reads the abbreviation of a code that is not in the table yet.
    #[tactic(auto, unfolding(unit_model::specs::Table::abbrev_of))]
    fn read_abbrev(&mut self, code: u64, cur: &mut Cur<'_>) -> Result<(), Stop>
        requires whole { IsWhole self.old }
        requires fresh { place_of self.old.codes code ≡ None }
        requires positive { 0 < code }
        ensures read { ReadsAbbrev result self.old self.new cur.new (abbrev_of code cur.old) }
        ensures not_longer { OnOk result (length cur.new.left ≤ length cur.old.left) }
    {
        let tag = uleb(cur)?;
        let children = read_children(cur)?;
        let first = self.attrs.len();
        read_attrs(cur, &mut self.attrs)?;
        let end = self.attrs.len();
        self.add(AbbrevRow {
            code,
            tag,
            children,
            first,
            end,
        })?;
        Ok(())
    }

    /// Reads the next abbreviation, where the table does not end.
    #[tactic(auto, unfolding(unit_model::specs::Table::next_abbrev, unit_model::specs::Table::abbrev_behind), using(crate::proofs::RowLemmas::next_lemmas))]
    pub fn read_next(&mut self, cur: &mut Cur<'_>) -> Result<bool, Stop>
        requires { IsWhole self.old }
        ensures read { ReadsNext result self.old self.new cur.new
            (next_abbrev (table_of self.old) cur.old) }
        ensures shorter { OnOk result (length cur.new.left < length cur.old.left) }
    {
        let at = cur.at();
        let code = uleb(cur)?;
        if code == 0 {
            return Ok(false);
        }
        let is_twice = self.codes.place(code).is_some();
        refuse_if(is_twice, Place::in_binary(at, Kind::CodeTwice))?;
        let is_full = self.rows.len() >= MAX_ABBREVS;
        refuse_if(is_full, Place::in_binary(at, Kind::TooManyAbbrevs))?;
        self.read_abbrev(code, cur)?;
        Ok(true)
    }
}
