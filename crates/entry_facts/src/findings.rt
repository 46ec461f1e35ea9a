// The attributes on a way that count.
ghost use Rattle.std.specs.Prelude.{◌≡◌, ◌∷◌, [], List, IfOk, IfSome, Some};
ghost use Rattle.unit_model.specs.Entries.{Entry as entry_told};
ghost use Rattle.unit_model.specs.Units.{Units as units_told};
ghost use Rattle.tree_model.specs.Way.{entry_beginning_at as beginning_told, way_from};
ghost use Rattle.std.specs.Option.{option_map};
ghost use Rattle.tree_model.specs.Origin.{first_on, line_on, naming};
ghost use Rattle.entry_facts.specs.Listed.{AreListed, IsListed};
ghost use Rattle.entry_facts.specs.Meaning.{AreFound, FindsOn, held_of, info_of};

use crate::attributes::{attribute, number_of};
use crate::info::Info;
use crate::way::next_on_way;
use dwarf_forms::Value;
use dwarf_info::{DW_AT_DECL_LINE, DW_AT_LINKAGE_NAME, DW_AT_MIPS_LINKAGE_NAME, DW_AT_NAME, Entry};
use refusal::{Kind, Place};

/// An attribute on a way: the unit of the entry that has it, its name, where its value stands, and
/// the value. Where the entry was found by the offset at which it begins, that offset.
#[derive(Clone, Copy)]
pub(crate) struct Held<'a> {
    pub unit: u32,
    pub stands_in: Option<u64>,
    pub name: u64,
    pub at: u64,
    pub value: Value<'a>,
}

/// The first attribute of each name on a way.
#[derive(Clone, Copy)]
pub(crate) struct Findings<'a> {
    pub linkage: Option<Held<'a>>,
    pub mips_linkage: Option<Held<'a>>,
    pub name: Option<Held<'a>>,
    pub line: Option<Held<'a>>,
}

impl<'a> Findings<'a> {
    /// The attribute that names the entry, where one does.
    pub fn naming(&self) -> Option<Held<'a>>
        ensures naming { (way : List entry_told) → AreFound way self.now
            → option_map held_of result ≡ naming way }
        ensures listed { (units : units_told) → AreListed units self.now
            → IfSome result (IsListed units) }
    {
        self.linkage.or(self.mips_linkage).or(self.name)
    }

    /// The start line, or 0 without one.
    pub fn line(&self) -> u64
        ensures { (way : List entry_told) → AreFound way self.now → result ≡ line_on way }
    {
        match self.line {
            Some(held) => number_of(held.value),
            None => 0,
        }
    }
}

/// The first attributes on the way from an entry on, with so many steps at most, of a way that
/// began at an offset in the file. `begins_at` is the offset by which the entry was found, where it
/// was found by one.
///
/// # Errors
/// What `next_on_way` answers on the way, and `OriginTooLong` where the way began, for one step
/// more.
pub(crate) fn findings_from<'a>(
    info: &Info<'a, '_>,
    began: u64,
    steps: u32,
    entry: &Entry<'a, '_>,
    begins_at: Option<u64>,
) -> Result<Findings<'a>, Place>
    requires { IfSome begins_at
        (λ at. beginning_told info.now.units.now.entries at ≡ Some entry.now) }
    ensures found { FindsOn result (way_from (info_of info.now) began steps entry.now) }
    ensures listed { IfOk result (AreListed info.now.units.now) }
{
    let next = match next_on_way(info, entry) {
        Ok(Some(next)) => next,
        Ok(None) => return Ok(found_in(entry, begins_at)),
        Err(place) => return Err(place),
    };
    if steps == 0 {
        return Err(Place::in_binary(began as usize, Kind::OriginTooLong));
    }
    let rest = findings_from(info, began, steps - 1, &next, Some(next.at))?;
    Ok(before(&found_in(entry, begins_at), &rest))
}

/// What a way says that begins with an entry of these attributes, where the rest of it says the
/// other.
#[tactic(auto, using(crate::proofs::FoundLemmas::before_lemmas))]
fn before<'a>(own: &Findings<'a>, rest: &Findings<'a>) -> Findings<'a>
    ensures found { (entry : entry_told) (way : List entry_told) → AreFound (entry ∷ []) own.now
        → AreFound way rest.now → AreFound (entry ∷ way) result }
    ensures listed { (units : units_told) → AreListed units own.now → AreListed units rest.now
        → AreListed units result }
{
    Findings {
        linkage: own.linkage.or(rest.linkage),
        mips_linkage: own.mips_linkage.or(rest.mips_linkage),
        name: own.name.or(rest.name),
        line: own.line.or(rest.line),
    }
}

/// What a way of one entry says.
fn found_in<'a>(entry: &Entry<'a, '_>, begins_at: Option<u64>) -> Findings<'a>
    ensures found { AreFound (entry.now ∷ []) result }
    ensures listed { (units : units_told)
        → IfSome begins_at (λ at. beginning_told units.entries at ≡ Some entry.now)
        → AreListed units result }
{
    Findings {
        linkage: held_in(entry, DW_AT_LINKAGE_NAME, begins_at),
        mips_linkage: held_in(entry, DW_AT_MIPS_LINKAGE_NAME, begins_at),
        name: held_in(entry, DW_AT_NAME, begins_at),
        line: held_in(entry, DW_AT_DECL_LINE, begins_at),
    }
}

/// The attribute of a name that an entry has.
#[tactic(auto, using(crate::proofs::FoundLemmas::held_lemmas))]
fn held_in<'a>(entry: &Entry<'a, '_>, name: u64, begins_at: Option<u64>) -> Option<Held<'a>>
    ensures found { option_map held_of result ≡ first_on name (entry.now ∷ []) }
    ensures listed { (units : units_told)
        → IfSome begins_at (λ at. beginning_told units.entries at ≡ Some entry.now)
        → IfSome result (IsListed units) }
{
    match attribute(&entry.found, name) {
        Some(found) => Some(Held {
            unit: entry.unit,
            stands_in: begins_at,
            name: found.name,
            at: found.at,
            value: found.value,
        }),
        None => None,
    }
}
