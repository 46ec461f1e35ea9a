ghost use Rattle.std.specs.Prelude.{◌≡◌};
ghost use Rattle.dwarf_forms.specs.Meaning.{meaning_of};
ghost use Rattle.dwarf_strings.specs.Meaning.{bases_of, sections_of};
ghost use Rattle.tree_model.specs.Bases.{address_at as address_told, attribute as attribute_told};
ghost use Rattle.tree_model.specs.Origin.{number_of as number_told};

use dwarf_forms::Value;
use dwarf_info::{Attributes, Found};
use dwarf_strings::{Bases, Texts, address};
use refusal::Place;

/// The attribute of a name among those of an entry.
pub fn attribute<'a>(found: &Attributes<'a, '_>, name: u64) -> Option<Found<'a>>
    ensures { result ≡ attribute_told name found.now }
{
    found.of_name(name)
}

/// The number that a value is, and 0 where it is none.
pub fn number_of(value: Value<'_>) -> u64
    ensures { result ≡ number_told (meaning_of value.entry) }
{
    match value {
        Value::Const(number) => number,
        _ => 0,
    }
}

/// The address that an attribute means, by the sections and bases of its unit.
///
/// # Errors
/// At the value, the first of these causes that holds: `BadClass` where it is of no class that
/// addresses have; for an address by index `NoBase`, `NoSection` and `PastSection` at
/// `.debug_addr`.
///
/// Source: DWARF 5, sections 7.5.5, class `address`, and 7.27.
pub fn address_at(found: &Found<'_>, texts: &Texts<'_>, bases: &Bases) -> Result<u64, Place>
    ensures { result ≡ address_told (sections_of texts.now) (bases_of bases.now) found.now }
{
    match address(found.value, texts, bases) {
        Ok(address) => Ok(address),
        Err(kind) => Err(Place::in_binary(found.at as usize, kind)),
    }
}
