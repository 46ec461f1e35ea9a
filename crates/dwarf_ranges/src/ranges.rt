ghost use Rattle.std.specs.Prelude.{◌≡◌};
ghost use Rattle.refusal.specs.Place.{JudgesUnlessNoMemory};
ghost use Rattle.range_model.specs.Lists.{bad_range, ranges_of as ranges_of_value};
ghost use Rattle.dwarf_forms.specs.Meaning.{meaning_of};
ghost use Rattle.dwarf_strings.specs.Meaning.{bases_of};
ghost use Rattle.dwarf_ranges.specs.Meaning.{range_sections_of};

use crate::list::{RangeParts, list_of};
use crate::walk::walk;
use dwarf_forms::Value;
use dwarf_strings::Bases;
use refusal::{Place, Stop};
use std::alloc::Global;

/// The ranges of addresses that a value of `DW_AT_ranges` means, in the order of their list: each
/// from its start up to its end, which is above it. Empty ranges are left out.
///
/// `at` is the value's place in the file, `version` that of its unit, and `base` the unit's base
/// address, which is the base of the list until an entry sets another. Sums of addresses wrap at 64
/// bits.
///
/// # Errors
/// The first bad place. At the value: `BadClass` where it is of no class that the attribute has,
/// then `NoBase`, `NoSection` and `PastSection` on the way to the list. At the first byte of an
/// entry: `Short` and `LebTooLong` where it cannot be read, `BadRangeEntry` where its code is none,
/// then `NoBase`, `NoSection` and `PastSection` of its indexes in their order, then `TooManyRanges`
/// at the 65,537th entry, the end entry aside. `NoMemory` where memory is refused.
///
/// Source: DWARF 5, sections 2.17.3, 7.25 and 7.28; DWARF 4, section 2.17.3.
#[tactic(auto, unfolding(range_model::specs::Lists::bad_range, range_model::specs::Lists::ranges_of))]
pub fn ranges_of<'a>(
    alloc: Global,
    at: u64,
    value: Value<'a>,
    version: u16,
    base: u64,
    parts: &RangeParts<'a>,
    bases: &Bases,
) -> Result<Vec<(u64, u64)>, Stop>
    ensures { let sections = range_sections_of parts.now in
        let counted = bases_of bases.now in
        let meant = meaning_of value.entry in
        JudgesUnlessNoMemory (bad_range at version sections counted meant) result
        (λ ranges. ranges.items ≡ ranges_of_value version base sections counted meant) }
{
    match list_of(value, version, parts, bases) {
        Ok(list) => walk(alloc, list, base, &parts.texts, bases),
        Err(kind) => Err(Stop::Refused(Place::in_binary(at as usize, kind))),
    }
}
