ghost use Rattle.std.specs.Prelude.{◌≡◌, ◌++◌, OnOk};
ghost use Rattle.std.specs.Option.{option_to_list};
ghost use Rattle.refusal.specs.Place.{JudgesUnlessNoMemory};
ghost use Rattle.range_model.specs.Lists.{bad_in_list, entries_of, ranges_from};
ghost use Rattle.range_model.specs.Texts.{address_of};
ghost use Rattle.dwarf_strings.specs.Meaning.{bases_of, sections_of};
ghost use Rattle.dwarf_ranges.specs.Meaning.{start_of};
ghost use Rattle.dwarf_ranges.specs.Walk.{TakesNext};

use crate::list::RangeList;
use crate::read::read_entry;
use crate::step::{ListStep, step_of};
use byte_view::Cur;
use dwarf_strings::{Bases, Texts};
use refusal::{Kind, NoMemory, Place, Stop, refuse_if};
use std::alloc::Global;

/// The most entries of one list, the one that ends it aside.
pub const MAX_ENTRIES: u64 = 65_536;

/// What the entry at the cursor makes of a base, where the list does not end there.
///
/// # Errors
/// At the first byte of the entry: `Short` and `LebTooLong` where it cannot be read,
/// `BadRangeEntry` where its code is none, then `NoBase`, `NoSection` and `PastSection` of its
/// indexes in their order.
///
/// Source: DWARF 5, sections 2.17.3 and 7.25; DWARF 4, section 2.17.3.
pub fn next_step(
    cur: &mut Cur<'_>,
    pairs: bool,
    base: u64,
    texts: &Texts<'_>,
    bases: &Bases,
) -> Result<Option<ListStep>, Place>
    ensures { TakesNext (address_of (sections_of texts.now) (bases_of bases.now)) pairs base
        cur.old cur.new result }
{
    let at = cur.at();
    match read_entry(cur, pairs) {
        Ok(None) => Ok(None),
        Ok(Some(entry)) => match step_of(at, entry, base, texts, bases) {
            Ok(step) => Ok(Some(step)),
            Err(kind) => Err(Place::in_binary(at, kind)),
        },
        Err(kind) => Err(Place::in_binary(at, kind)),
    }
}

/// Adds a range, if there is one.
fn add(ranges: &mut Vec<(u64, u64)>, range: Option<(u64, u64)>) -> Result<(), NoMemory>
    ensures { OnOk result (ranges.new.items ≡ ranges.old.items ++ option_to_list range) }
{
    if let Some(range) = range {
        ranges.push(range)?;
    }
    Ok(())
}

/// The ranges that the entries of a list mean, counted from the base that stands at each.
pub(crate) fn walk(
    alloc: Global,
    list: RangeList<'_>,
    first_base: u64,
    texts: &Texts<'_>,
    bases: &Bases,
) -> Result<Vec<(u64, u64)>, Stop>
    ensures { let resolve = address_of (sections_of texts.now) (bases_of bases.now) in
        let listed = entries_of (start_of list.entry) in
        JudgesUnlessNoMemory (bad_in_list resolve 0 listed) result
        (λ ranges. ranges.items ≡ ranges_from resolve first_base listed.entries) }
{
    let pairs = list.pairs;
    let mut cur = list.cur;
    let mut base = first_base;
    let mut ranges = Vec::new(alloc);
    let mut count = 0;
    'entries: while let Some(step) = next_step(&mut cur, pairs, base, texts, bases)? {
        refuse_if(
            count == MAX_ENTRIES,
            Place::in_binary(step.at, Kind::TooManyRanges),
        )?;
        base = step.base;
        add(&mut ranges, step.range)?;
        count += 1;
    }
    Ok(ranges)
}
