ghost use Rattle.std.specs.Prelude.{◌≡◌, ◌++◌, ◌∷◌, [], ◌<◌, ◌≤◌, length, OnOk};
ghost use Rattle.placed_view.specs.Reader.{Gives};
ghost use Rattle.unit_model.specs.Table.{attrs as attrs_told, implicit as implicit_told};
ghost use Rattle.dwarf_abbrev.specs.Table.{ReadsAttr, ReadsAttrs};

use byte_view::Cur;
use placed_view::{sleb, uleb};
use refusal::{NoMemory, Place, Stop};
use std::marker::Model;

/// `DW_FORM_implicit_const`, whose value stands in the abbreviation.
const DW_FORM_IMPLICIT_CONST: u64 = 0x21;

/// An attribute of an abbreviation and the form of its values. `implicit` is the value that the
/// table has for `DW_FORM_implicit_const`, and 0 for every other form.
#[derive(Debug, Drop)]
pub struct Attr {
    pub name: u64,
    pub form: u64,
    pub implicit: i64,
}

impl Model for Attr {
    ghost use Rattle.unit_model.specs.Abbrev.{Attr};

    ghost Value = { Attr };

    ghost view = { λ a. record { name = a.name; form = a.form; implicit = a.implicit } };
}

/// The value behind a form, where it stands in the table.
#[tactic(auto, unfolding(unit_model::specs::Table::implicit))]
fn read_implicit(cur: &mut Cur<'_>, form: u64) -> Result<i64, Place>
    ensures read { Gives (λ z. z) result cur.new (implicit_told form cur.old) }
    ensures not_longer { OnOk result (length cur.new.left ≤ length cur.old.left) }
{
    if form == DW_FORM_IMPLICIT_CONST {
        sleb(cur)
    } else {
        Ok(0)
    }
}

/// The next attribute, where the list does not end.
#[tactic(auto, unfolding(unit_model::specs::Table::next_attr))]
fn read_attr(cur: &mut Cur<'_>) -> Result<Option<Attr>, Place>
    ensures read { ReadsAttr result cur.old cur.new }
    ensures shorter { OnOk result (length cur.new.left < length cur.old.left) }
{
    let name = uleb(cur)?;
    let form = uleb(cur)?;
    let implicit = read_implicit(cur, form)?;
    if name == 0 && form == 0 {
        return Ok(None);
    }
    Ok(Some(Attr {
        name,
        form,
        implicit,
    }))
}

/// Appends an attribute.
fn push(attrs: &mut Vec<Attr>, attr: Attr) -> Result<(), NoMemory>
    ensures { OnOk result (attrs.new.items ≡ attrs.old.items ++ attr ∷ []) }
{
    attrs.push(attr)?;
    Ok(())
}

/// Appends the attributes of one abbreviation.
pub(crate) fn read_attrs(cur: &mut Cur<'_>, attrs: &mut Vec<Attr>) -> Result<(), Stop>
    ensures read { ReadsAttrs result attrs.old.items attrs.new.items cur.new (attrs_told cur.old) }
    ensures not_longer { OnOk result (length cur.new.left ≤ length cur.old.left) }
{
    while let Some(attr) = read_attr(cur)? {
        push(attrs, attr)?;
    }
    Ok(())
}
