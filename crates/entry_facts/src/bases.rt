ghost use Rattle.std.specs.Prelude.{◌≡◌};
ghost use Rattle.dwarf_forms.specs.Meaning.{meaning_of};
ghost use Rattle.dwarf_strings.specs.Meaning.{bases_of as bases_seen, sections_of};
ghost use Rattle.tree_model.specs.Bases.{base_address as base_address_told, base_in as base_in_told, bases_of_unit, section_place as section_place_told};

use crate::attributes::address_at;
use crate::root::{is_wide, root_attribute};
use dwarf_forms::Value;
use dwarf_info::{
    DW_AT_ADDR_BASE, DW_AT_LOW_PC, DW_AT_RNGLISTS_BASE, DW_AT_STR_OFFSETS_BASE, Units,
};
use dwarf_strings::{Bases, Texts};
use refusal::Place;

/// The place in a section that a value means, as that of a base or of `DW_AT_stmt_list`.
pub fn section_place(value: Value<'_>) -> Option<u64>
    ensures { result ≡ section_place_told (meaning_of value.entry) }
{
    match value {
        Value::Offset(at) => Some(at),
        Value::Const(at) => Some(at),
        _ => None,
    }
}

/// The place that an attribute of a unit's root means, if it is there.
fn base_in(units: &Units<'_>, unit: u32, name: u64) -> Option<u64>
    ensures { result ≡ base_in_told units.now unit name }
{
    match root_attribute(units, unit, name) {
        Some(base) => section_place(base.value),
        None => None,
    }
}

/// What the indexes of the unit of a number count from, by the unit's root, and the size of the
/// unit's offsets. A root without such an attribute gives no base.
///
/// Source: DWARF 5, section 3.1.1.
#[tactic(auto, unfolding(tree_model::specs::Bases::bases_of_unit))]
pub fn bases_of(units: &Units<'_>, unit: u32) -> Bases
    ensures { bases_seen result ≡ bases_of_unit units.now unit }
{
    Bases {
        wide: is_wide(units, unit),
        str_offsets: base_in(units, unit, DW_AT_STR_OFFSETS_BASE),
        addr: base_in(units, unit, DW_AT_ADDR_BASE),
        rnglists: base_in(units, unit, DW_AT_RNGLISTS_BASE),
    }
}

/// The base address of the unit of a number: the address of its root, and 0 where the root has
/// none.
///
/// # Errors
/// What `address_at` answers for the root's `DW_AT_low_pc`.
///
/// Source: DWARF 5, section 3.1.1.
#[tactic(auto, unfolding(tree_model::specs::Bases::base_address))]
pub fn base_address(units: &Units<'_>, unit: u32, texts: &Texts<'_>) -> Result<u64, Place>
    ensures { result ≡ base_address_told (sections_of texts.now) units.now unit }
{
    let bases = bases_of(units, unit);
    match root_attribute(units, unit, DW_AT_LOW_PC) {
        Some(found) => address_at(&found, texts, &bases),
        None => Ok(0),
    }
}
