// The values of an entry's attributes.
ghost use Rattle.std.specs.Prelude.{◌≡◌, ◌≤◌, drop, length, OnOk};
ghost use Rattle.refusal.specs.Place.{in_binary};
ghost use Rattle.placed_view.specs.Reader.{Gives};
ghost use Rattle.unit_model.specs.Values.{kind_of_value, next_value, value as value_told, values as values_told};
ghost use Rattle.dwarf_forms.specs.Meaning.{fault_of, meaning_of};
ghost use Rattle.dwarf_info.specs.Values.{AddsFound, ReadsFound, ReadsValues, has_name as has_name_told};

use crate::attributes::AttributeList;
use crate::rows::Found;
use crate::wanted::{accepts, is_unused, wanted};
use byte_view::Cur;
use dwarf_abbrev::Attr;
use dwarf_forms::{FormFault, UnitShape, Value, read_value};
use placed_view::kind_of;
use refusal::{Kind, NoMemory, Place, Stop, refuse_if};

/// The place of a value's fault, with the value at an offset in the binary.
fn place_of(fault: FormFault, at: usize) -> Place
    ensures { result ≡ in_binary at (kind_of_value (fault_of fault)) }
{
    match fault {
        FormFault::BadForm => Place::in_binary(at, Kind::BadForm),
        FormFault::IndirectTwice => Place::in_binary(at, Kind::IndirectTwice),
        FormFault::View(fault) => Place::in_binary(at, kind_of(fault)),
    }
}

/// The value of an attribute.
fn read_at<'a>(cur: &mut Cur<'a>, attr: &Attr, shape: UnitShape) -> Result<Value<'a>, Place>
    ensures read { Gives meaning_of result cur.new (value_told shape.wide attr.now cur.old) }
    ensures not_longer { OnOk result (length cur.new.left ≤ length cur.old.left) }
{
    let at = cur.at();
    match read_value(cur, attr.form, attr.implicit, shape) {
        Ok(value) => Ok(value),
        Err(fault) => Err(place_of(fault, at)),
    }
}

/// Whether an attribute of a name stands among those from `first` on.
fn has_name(found: &AttributeList<'_>, first: usize, name: u64) -> bool
    requires { first ≤ length found.now }
    ensures { result ≡ has_name_told (drop first found.now) name }
{
    found.slice(first, found.len()).of_name(name).is_some()
}

/// Adds an attribute, unless one of its name stands among those from `first` on.
fn add_found<'a>(
    found: &mut AttributeList<'a>,
    first: usize,
    more: Found<'a>,
) -> Result<(), NoMemory>
    requires { first ≤ length found.old }
    ensures { OnOk result (AddsFound first found.old found.new more.entry) }
{
    if has_name(found, first, more.name) {
        return Ok(());
    }
    found.push(more)
}

/// Reads the next value, and adds it to those from `first` on where it is wanted.
#[tactic(auto, unfolding(unit_model::specs::Values::next_value), using(crate::proofs::ValueLemmas::next_value_lemmas))]
fn read_next<'a>(
    cur: &mut Cur<'a>,
    tag: u64,
    attr: &Attr,
    shape: UnitShape,
    found: &mut AttributeList<'a>,
    first: usize,
) -> Result<(), Stop>
    requires { first ≤ length found.old }
    ensures read { ReadsFound first result found.old found.new cur.new
        (next_value shape.wide tag attr.now (drop first found.old) cur.old) }
    ensures not_longer { OnOk result (length cur.new.left ≤ length cur.old.left) }
{
    let at = cur.at();
    let value = read_at(cur, attr, shape)?;
    let purpose = wanted(tag, attr.name);
    let is_bad = !accepts(purpose, value);
    refuse_if(is_bad, Place::in_binary(at, Kind::BadClass))?;
    if is_unused(purpose) {
        return Ok(());
    }
    let more = Found {
        name: attr.name,
        at: at as u64,
        value,
    };
    add_found(found, first, more)?;
    Ok(())
}

/// Reads the values of an entry's attributes, and adds those that are wanted.
pub(crate) fn read_values<'a>(
    cur: &mut Cur<'a>,
    tag: u64,
    attrs: &[Attr],
    shape: UnitShape,
    found: &mut AttributeList<'a>,
) -> Result<(), Stop>
    ensures read { ReadsValues result found.old found.new cur.new
        (values_told shape.wide tag attrs.now cur.old) }
    ensures not_longer { OnOk result (length cur.new.left ≤ length cur.old.left) }
{
    let first = found.len();
    for attr in attrs {
        read_next(cur, tag, attr, shape, found, first)?;
    }
    Ok(())
}
