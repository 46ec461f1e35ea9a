// The way of an entry, step by step.
ghost use Rattle.std.specs.Prelude.{◌≡◌, IsTrue, true};
ghost use Rattle.dwarf_forms.specs.Meaning.{meaning_of};
ghost use Rattle.tree_model.specs.Way.{entry_beginning_at as entry_told, is_passed_over as passed_over_told, led_to as led_to_told, next_on_way as next_told, reference_of as reference_told, start_of_unit as start_told, target_of as target_told};
ghost use Rattle.entry_facts.specs.Meaning.{info_of};

use crate::attributes::attribute;
use crate::info::Info;
use dwarf_forms::Value;
use dwarf_info::{DW_AT_ABSTRACT_ORIGIN, DW_AT_SPECIFICATION, Entry, Found, Units};
use refusal::{Kind, Place};

/// The entry behind one on a way, or none where the way ends.
///
/// # Errors
/// `BadReference` at the reference, where it leads to no entry that is read and into no unit that
/// was passed over.
#[tactic(auto, unfolding(tree_model::specs::Way::next_on_way))]
pub(crate) fn next_on_way<'a, 'u>(
    info: &Info<'a, 'u>,
    entry: &Entry<'a, '_>,
) -> Result<Option<Entry<'a, 'u>>, Place>
    ensures { result ≡ next_told (info_of info.now) entry.now }
{
    match reference_of(entry) {
        Some(found) => {
            let target = target_of(info, entry.unit, found.value);
            led_to(info.units, found.at, target)
        }
        None => Ok(None),
    }
}

/// The attribute by which an entry leads to another one.
pub(crate) fn reference_of<'a>(entry: &Entry<'a, '_>) -> Option<Found<'a>>
    ensures { result ≡ reference_told entry.now }
{
    match attribute(&entry.found, DW_AT_ABSTRACT_ORIGIN) {
        Some(found) => Some(found),
        None => attribute(&entry.found, DW_AT_SPECIFICATION),
    }
}

/// The offset in the file that a value of an entry in a unit leads to. It may be past any file.
pub(crate) fn target_of(info: &Info<'_, '_>, unit: u32, value: Value<'_>) -> Option<u128>
    ensures { result ≡ target_told (info_of info.now) unit (meaning_of value.entry) }
{
    match value {
        Value::Ref(offset) => {
            let start = start_of_unit(info.units, unit);
            Some(u128::from(start) + u128::from(offset))
        }
        Value::RefInfo(offset) => Some(info.start as u128 + u128::from(offset)),
        _ => None,
    }
}

/// Where the unit of a number begins in the file.
fn start_of_unit(units: &Units<'_>, unit: u32) -> u64
    ensures { result ≡ start_told units.now unit }
{
    match units.units().get(unit as usize) {
        Some(unit) => unit.at,
        None => 0,
    }
}

/// The entry that a reference leads to, or none where the way ends.
fn led_to<'a, 'u>(
    units: &'u Units<'a>,
    place: u64,
    target: Option<u128>,
) -> Result<Option<Entry<'a, 'u>>, Place>
    ensures { result ≡ led_to_told units.now place target }
{
    let Some(at) = target else {
        return Ok(None);
    };
    if let Some(next) = entry_beginning_at(units, at) {
        return Ok(Some(next));
    }
    if is_passed_over(units, at) {
        return Ok(None);
    }
    Err(Place::in_binary(place as usize, Kind::BadReference))
}

/// The entry that begins at an offset in the file.
pub(crate) fn entry_beginning_at<'a, 'u>(units: &'u Units<'a>, at: u128) -> Option<Entry<'a, 'u>>
    ensures { result ≡ entry_told units.now.entries at }
{
    // It tells that the entries stand in the order of the file.
    units.units();
    if at > u128::from(u64::MAX) {
        return None;
    }
    match units.entry_at(at as u64) {
        Some(place) => units.entry(place),
        None => None,
    }
}

/// Whether an offset in the file lies in a unit that was passed over.
///
/// Such units stand in the order of the file, so that it lies in the first one that ends behind it.
/// That they do is proved nowhere: where it lies there in none, each one is looked at, once, as a
/// file with such a reference is refused.
fn is_passed_over(units: &Units<'_>, at: u128) -> bool
    ensures { result ≡ passed_over_told units.now.skipped at }
{
    let skipped = units.skipped();
    lies_in_first_behind(skipped, at) || lies_in_any(skipped, at)
}

/// Whether an offset lies in the first of some extents that ends behind it, which is searched for
/// as if they stood in order.
fn lies_in_first_behind(extents: &[(u64, u64)], at: u128) -> bool
    ensures { IsTrue result → passed_over_told extents.now at ≡ true }
{
    let number = extents.partition_point(|extent| u128::from(extent.1) <= at);
    match extents.get(number) {
        Some((start, end)) => u128::from(*start) <= at && at < u128::from(*end),
        None => false,
    }
}

/// Whether an offset lies in one of some extents.
fn lies_in_any(extents: &[(u64, u64)], at: u128) -> bool
    ensures { result ≡ passed_over_told extents.now at }
{
    for (start, end) in extents {
        if u128::from(*start) <= at && at < u128::from(*end) {
            return true;
        }
    }
    false
}
