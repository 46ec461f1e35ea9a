// The kinds of entries that a table of abbreviations tells of.
//
// An entry of a byte can have any number of attributes whose values take no bytes, and entries of
// real programs have several that nobody wants. Those are passed over once for all entries.
ghost use Rattle.std.specs.Prelude.{◌≡◌, ◌++◌, ◌∷◌, [], List, map, IfOk, OnOk};
ghost use Rattle.refusal.specs.Place.{JudgesUnlessNoMemory};
ghost use Rattle.placed_view.specs.Reader.{IsRead, refused_at, start_of};
ghost use Rattle.unit_model.specs.Abbrev.{Attr as AttrTold};
ghost use Rattle.unit_model.specs.Table.{table};
ghost use Rattle.dwarf_info.specs.Tables.{room_of as room_told};
ghost use Rattle.dwarf_info.specs.Telling.{is_among as is_among_told, is_implicit as is_implicit_told, shortened, takes_none as takes_none_told, telling_behind, tells_nothing as tells_nothing_told, told_with};

use crate::wanted::{is_unused, wanted};
use byte_view::Part;
use dwarf_abbrev::{Abbrev, Abbrevs, Attr, read_table};
use refusal::{NoMemory, Stop};
use std::alloc::Global;
use std::marker::Model;

/// `DW_FORM_flag_present`, whose value takes no bytes.
const DW_FORM_FLAG_PRESENT: u64 = 0x19;

/// `DW_FORM_implicit_const`, whose value stands in the abbreviation.
const DW_FORM_IMPLICIT_CONST: u64 = 0x21;

/// The entries of a code: their tag, whether children may follow, and the attributes that tell
/// something of them, in the order of the values.
#[derive(Debug, Drop)]
struct EntryKind {
    code: u64,
    tag: u64,
    children: bool,
    attrs: Vec<Attr>,
}

impl Model for EntryKind {
    ghost use Rattle.unit_model.specs.Abbrev.{Abbrev};

    ghost Value = { Abbrev };

    ghost view = { λ k. record {
      code = k.code;
      tag = k.tag;
      children = k.children;
      attrs = k.attrs.items;
    } };
}

impl EntryKind {
    ghost use Rattle.std.specs.Prelude.{◌≡◌};

    /// These entries as an abbreviation.
    fn lend(&self) -> Abbrev<'_>
        ensures { result ≡ self.now }
    {
        Abbrev {
            code: self.code,
            tag: self.tag,
            children: self.children,
            attrs: &self.attrs,
        }
    }
}

/// Whether a value in a form stands in the abbreviation.
fn is_implicit(form: u64) -> bool
    ensures { result ≡ is_implicit_told form }
{
    form == DW_FORM_IMPLICIT_CONST
}

/// Whether a value in a form takes no bytes.
fn takes_none(form: u64) -> bool
    ensures { result ≡ takes_none_told form }
{
    form == DW_FORM_FLAG_PRESENT || is_implicit(form)
}

/// Whether a name is one of these.
fn is_among(names: &[u64], name: u64) -> bool
    ensures { result ≡ is_among_told names.now name }
{
    for other in names {
        if *other == name {
            return true;
        }
    }
    false
}

/// Whether an attribute tells nothing of an entry: its value takes no bytes, and it is not wanted,
/// or a value in the abbreviation has its name already.
fn tells_nothing(tag: u64, told: &[u64], attr: &Attr) -> bool
    ensures { result ≡ tells_nothing_told tag told.now attr.now }
{
    let is_idle = takes_none(attr.form) && is_unused(wanted(tag, attr.name));
    let is_again = is_implicit(attr.form) && is_among(told, attr.name);
    is_idle || is_again
}

/// Adds an attribute's name to those that values in the abbreviation have.
fn tell(told: &mut Vec<u64>, attr: &Attr) -> Result<(), NoMemory>
    ensures { OnOk result (told.new.items ≡ told_with told.old.items attr.now) }
{
    if !is_implicit(attr.form) {
        return Ok(());
    }
    told.push(attr.name)?;
    Ok(())
}

/// Adds an attribute.
fn push(attrs: &mut Vec<Attr>, attr: &Attr) -> Result<(), NoMemory>
    ensures { OnOk result (attrs.new.items ≡ attrs.old.items ++ attr.now ∷ []) }
{
    attrs.push(Attr {
        name: attr.name,
        form: attr.form,
        implicit: attr.implicit,
    })?;
    Ok(())
}

/// Adds an attribute to others, where it tells something.
fn add(attrs: &mut Vec<Attr>, told: &mut Vec<u64>, tag: u64, attr: &Attr) -> Result<(), NoMemory>
    ensures { OnOk result ((rest : List AttrTold) →
        attrs.new.items ++ telling_behind tag told.new.items rest
        ≡ attrs.old.items ++ telling_behind tag told.old.items (attr.now ∷ rest)) }
{
    if tells_nothing(tag, told, attr) {
        return Ok(());
    }
    push(attrs, attr)?;
    tell(told, attr)
}

/// The attributes of entries with a tag that tell something.
fn telling(alloc: Global, tag: u64, attrs: &[Attr]) -> Result<Vec<Attr>, NoMemory>
    ensures { IfOk result (λ telling. telling.items ≡ telling_behind tag [] attrs.now) }
{
    let mut telling = Vec::new(alloc);
    let mut told = Vec::new(alloc);
    for attr in attrs {
        add(&mut telling, &mut told, tag, attr)?;
    }
    Ok(telling)
}

/// The entries of an abbreviation.
fn kind_of(alloc: Global, abbrev: &Abbrev<'_>) -> Result<EntryKind, NoMemory>
    ensures { IfOk result (λ kind. kind ≡ shortened abbrev.now) }
{
    let attrs = telling(alloc, abbrev.tag, abbrev.attrs)?;
    Ok(EntryKind {
        code: abbrev.code,
        tag: abbrev.tag,
        children: abbrev.children,
        attrs,
    })
}

/// The entries of each abbreviation of a table.
fn kinds_of(alloc: Global, table: &Abbrevs) -> Result<Vec<EntryKind>, NoMemory>
    ensures { IfOk result (λ kinds. kinds.items ≡ map shortened table.now) }
{
    let mut kinds = Vec::new(alloc);
    for index in 0..table.len() {
        let kind = kind_of(alloc, &table.at(index))?;
        kinds.push(kind)?;
    }
    Ok(kinds)
}

/// A table of abbreviations, which lends each with the attributes that tell something.
#[derive(Debug, Drop)]
pub(crate) struct EntryKinds {
    table: Abbrevs,
    kinds: Vec<EntryKind>,
    room: usize,
}

impl Model for EntryKinds {
    ghost use Rattle.std.specs.Prelude.{◌≡◌, List, map};
    ghost use Rattle.unit_model.specs.Abbrev.{Abbrev};
    ghost use Rattle.dwarf_info.specs.Tables.{room_of as room_told};
    ghost use Rattle.dwarf_info.specs.Telling.{shortened};
    ghost use Rattle.entry_model.specs.Tables.{AreDistinct};

    ghost Value = { List Abbrev };

    ghost view = { λ k. k.table };

    ghost invariant = { λ k. (k.kinds.items ≡ map shortened k.table)
        × (k.room ≡ room_told k.table)
        × AreDistinct k.table };
}

impl EntryKinds {
    ghost use Rattle.std.specs.Prelude.{◌≡◌, IfOk, drop, length};
    ghost use Rattle.std.specs.Option.{option_map};
    ghost use Rattle.unit_model.specs.Abbrev.{find_code};
    ghost use Rattle.entry_model.specs.Tables.{AreDistinct};
    ghost use Rattle.dwarf_info.specs.Tables.{room_of as room_told};
    ghost use Rattle.dwarf_info.specs.Telling.{shortened};

    /// The kinds of entries of a table.
    fn new(alloc: Global, table: Abbrevs) -> Result<EntryKinds, NoMemory>
        requires { AreDistinct table }
        ensures { IfOk result (λ kinds. kinds ≡ table) }
    {
        let kinds = kinds_of(alloc, &table)?;
        let room = room_of(&table);
        Ok(EntryKinds { table, kinds, room })
    }

    /// The abbreviation of a code in the table behind its first ones, so many as `skip`, with the
    /// attributes that tell something.
    pub fn find_behind(&self, skip: usize, code: u64) -> Option<Abbrev<'_>>
        ensures { result ≡ option_map shortened (find_code (drop skip self.now) code) }
    {
        let index = self.table.place(code)?;
        if index < skip {
            return None;
        }
        Some(self.kinds[index].lend())
    }

    /// How many abbreviations the table has.
    pub fn len(&self) -> usize
        ensures { result ≡ length self.now }
    {
        self.table.len()
    }

    /// How much room the table takes.
    pub fn room(&self) -> usize
        ensures { result ≡ room_told self.now }
    {
        self.room
    }
}

/// How much room a table takes: one for each abbreviation and each attribute, and one for its end.
fn room_of(table: &Abbrevs) -> usize
    ensures { result ≡ room_told table.now }
{
    let mut room = 1usize;
    for index in 0..table.len() {
        let attrs = table.at(index).attrs.len();
        room = room.saturating_add(1).saturating_add(attrs);
    }
    room
}

/// Reads the table that stands at the start of a piece.
///
/// # Errors
/// Those of `read_table`.
pub(crate) fn read_kinds(alloc: Global, part: Part<'_>) -> Result<EntryKinds, Stop>
    ensures { JudgesUnlessNoMemory (refused_at (table (start_of part.entry))) result
        (IsRead (table (start_of part.entry))) }
{
    let table = read_table(alloc, part)?;
    let kinds = EntryKinds::new(alloc, table)?;
    Ok(kinds)
}
