// The ranges that an entry spells.
ghost use Rattle.std.specs.Prelude.{◌≡◌, IfOk, None};
ghost use Rattle.std.specs.Option.{option_to_list};
ghost use Rattle.dwarf_strings.specs.Meaning.{Gives};
ghost use Rattle.unit_model.specs.Constants.{DW_AT_high_pc, DW_AT_low_pc};
ghost use Rattle.tree_model.specs.Bases.{attribute as attribute_told};
ghost use Rattle.tree_model.specs.Pieces.{end_by as end_told, pair as pair_told, spelled_by};
ghost use Rattle.entry_facts.specs.Told.{GivesUnlessNoMemory, in_unit};

use crate::attributes::{address_at, attribute};
use crate::in_unit::InUnit;
use dwarf_forms::Value;
use dwarf_info::{DW_AT_HIGH_PC, DW_AT_LOW_PC, Entry, Found};
use refusal::{NoMemory, Place, Stop};
use std::alloc::Global;

/// The ranges that an entry without `DW_AT_ranges` spells: by `DW_AT_low_pc` and `DW_AT_high_pc`
/// where both stand, else none.
pub(crate) fn by_ends(
    alloc: Global,
    of: &InUnit<'_>,
    entry: &Entry<'_, '_>,
) -> Result<Vec<(u64, u64)>, Stop>
    ensures { GivesUnlessNoMemory (λ ranges. ranges.items) result
        (spelled_by (in_unit of.now) None (attribute_told DW_AT_low_pc entry.now.found)
        (attribute_told DW_AT_high_pc entry.now.found)) }
{
    let low = attribute(&entry.found, DW_AT_LOW_PC);
    let high = attribute(&entry.found, DW_AT_HIGH_PC);
    let range = between(of, low, high)?;
    Ok(list_of(alloc, range)?)
}

/// The range by `DW_AT_low_pc` and `DW_AT_high_pc`, where both are there.
fn between(
    of: &InUnit<'_>,
    low: Option<Found<'_>>,
    high: Option<Found<'_>>,
) -> Result<Option<(u64, u64)>, Place>
    ensures { Gives option_to_list result (spelled_by (in_unit of.now) None low.entry high.entry) }
{
    let Some(low) = low else {
        return Ok(None);
    };
    let Some(high) = high else {
        return Ok(None);
    };
    pair(of, &low, &high)
}

/// The range from `DW_AT_low_pc` up to `DW_AT_high_pc`, if it is not empty.
fn pair(of: &InUnit<'_>, low: &Found<'_>, high: &Found<'_>) -> Result<Option<(u64, u64)>, Place>
    ensures { Gives option_to_list result (pair_told (in_unit of.now) low.now high.now) }
{
    let start = address_at(low, &of.parts.texts, &of.bases)?;
    let end = end_by(of, start, high)?;
    Ok(if start < end {
        Some((start, end))
    } else {
        None
    })
}

/// The end of a range from its start on, by `DW_AT_high_pc`: an address, or the size as a constant.
///
/// Source: DWARF 5, section 2.17.2.
fn end_by(of: &InUnit<'_>, start: u64, high: &Found<'_>) -> Result<u64, Place>
    ensures { result ≡ end_told (in_unit of.now) start high.now high.now.value }
{
    match high.value {
        Value::Const(size) => Ok(start.wrapping_add(size)),
        _ => address_at(high, &of.parts.texts, &of.bases),
    }
}

/// The list of a range, if there is one.
fn list_of(alloc: Global, range: Option<(u64, u64)>) -> Result<Vec<(u64, u64)>, NoMemory>
    ensures { IfOk result (λ ranges. ranges.items ≡ option_to_list range) }
{
    match range {
        Some(range) => {
            let mut ranges = Vec::with_capacity(alloc, 1)?;
            ranges.push(range)?;
            Ok(ranges)
        }
        None => Ok(Vec::new(alloc)),
    }
}
