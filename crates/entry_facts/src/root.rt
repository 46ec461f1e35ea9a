ghost use Rattle.std.specs.Prelude.{◌≡◌};
ghost use Rattle.tree_model.specs.Bases.{if_root as if_root_told, is_wide as is_wide_told, root_attribute as root_attribute_told, root_of};

use crate::attributes::attribute;
use dwarf_info::{DW_TAG_COMPILE_UNIT, DW_TAG_PARTIAL_UNIT, Entry, Found, Units};

/// An entry, where it is a root.
///
/// Source: DWARF 5, section 3.1.1.
fn if_root<'a, 'u>(entry: Entry<'a, 'u>) -> Option<Entry<'a, 'u>>
    ensures { result ≡ if_root_told entry.entry }
{
    if entry.tag == DW_TAG_COMPILE_UNIT || entry.tag == DW_TAG_PARTIAL_UNIT {
        Some(entry)
    } else {
        None
    }
}

/// The root of the unit of a number.
#[tactic(auto, unfolding(tree_model::specs::Bases::root_of))]
fn root<'a, 'u>(units: &'u Units<'a>, unit: u32) -> Option<Entry<'a, 'u>>
    ensures { result ≡ root_of units.now unit }
{
    let Some(unit) = units.units().get(unit as usize) else {
        return None;
    };
    if unit.count == 0 {
        return None;
    }
    match units.entry(unit.first as usize) {
        Some(entry) => if_root(entry),
        None => None,
    }
}

/// The attribute of a name of the root of the unit of a number.
pub fn root_attribute<'a>(units: &Units<'a>, unit: u32, name: u64) -> Option<Found<'a>>
    ensures { result ≡ root_attribute_told units.now unit name }
{
    match root(units, unit) {
        Some(root) => attribute(&root.found, name),
        None => None,
    }
}

/// Whether the unit of a number is in 64-bit DWARF.
pub(crate) fn is_wide(units: &Units<'_>, unit: u32) -> bool
    ensures { result ≡ is_wide_told units.now unit }
{
    match units.units().get(unit as usize) {
        Some(unit) => unit.wide,
        None => false,
    }
}
