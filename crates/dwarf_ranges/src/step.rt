ghost use Rattle.std.specs.Prelude.{◌≡◌};
ghost use Rattle.std.specs.Option.{option_to_list};
ghost use Rattle.range_model.specs.Lists.{proper as proper_of};
ghost use Rattle.range_model.specs.Texts.{address_of};
ghost use Rattle.dwarf_strings.specs.Meaning.{bases_of, sections_of};
ghost use Rattle.dwarf_ranges.specs.Meaning.{TakesStep, entry_of};

use crate::entry::ListEntry;
use dwarf_strings::{Bases, Texts, address};
use refusal::Kind;

/// What an entry at a place in the file makes of a base: the base behind it, and the range that it
/// adds, if any.
#[derive(Clone, Copy, Debug)]
pub struct ListStep {
    pub at: usize,
    pub base: u64,
    pub range: Option<(u64, u64)>,
}

/// A range, where its end is above its start.
fn proper(start: u64, end: u64) -> Option<(u64, u64)>
    ensures { option_to_list result ≡ proper_of start end }
{
    if start < end {
        Some((start, end))
    } else {
        None
    }
}

/// What an entry makes of a base. Sums are those of addresses: they wrap at 64 bits.
pub(crate) fn step_of(
    at: usize,
    entry: ListEntry<'_>,
    base: u64,
    texts: &Texts<'_>,
    bases: &Bases,
) -> Result<ListStep, Kind>
    ensures { TakesStep (address_of (sections_of texts.now) (bases_of bases.now)) at base
        (entry_of entry.entry) result }
{
    match entry {
        ListEntry::SetsBase(value) => Ok(ListStep {
            at,
            base: address(value, texts, bases)?,
            range: None,
        }),
        ListEntry::Between(start, end) => {
            let start = address(start, texts, bases)?;
            let end = address(end, texts, bases)?;
            Ok(ListStep {
                at,
                base,
                range: proper(start, end),
            })
        }
        ListEntry::Along(start, size) => {
            let start = address(start, texts, bases)?;
            Ok(ListStep {
                at,
                base,
                range: proper(start, start.wrapping_add(size)),
            })
        }
        ListEntry::FromBase(start, end) => Ok(ListStep {
            at,
            base,
            range: proper(base.wrapping_add(start), base.wrapping_add(end)),
        }),
    }
}
