ghost use Rattle.std.specs.Prelude.{◌≡◌, ◌≤◌, ◌^◌};
ghost use Rattle.tree_model.specs.Pieces.{live_ranges, pieces as pieces_told};
ghost use Rattle.dwarf_ranges.specs.Meaning.{range_sections_of};
ghost use Rattle.entry_facts.specs.Lists.{RemembersLists, live_spelled};
ghost use Rattle.entry_facts.specs.Told.{GivesUnlessNoMemory, in_unit};

use crate::attributes::attribute;
use crate::in_unit::InUnit;
use crate::lists::Lists;
use crate::spelled::by_ends;
use dwarf_info::{DW_AT_RANGES, Entry};
use elf_sections::Elf;
use refusal::{Kind, Place, Stop, refuse_if};
use std::alloc::Global;

/// The most pieces of a file.
pub const MAX_PIECES: u64 = 1 << 26;

/// The pieces of an entry, in the order of its ranges: from the first address of each up to its
/// end, which is left out. `before` is how many pieces the entries before it have, and `lists` has
/// the long range lists that were read for them.
///
/// # Errors
/// The first bad place. With `DW_AT_ranges`, that of its range list. Else, with both
/// `DW_AT_low_pc` and `DW_AT_high_pc`, that of the first and then the second: `BadClass`, and for
/// an index `NoBase`, `NoSection` and `PastSection`, at the value. Then `TooManyRanges` at the
/// entry with which the file has more than 2^26 pieces. `NoMemory` where memory is refused.
///
/// Source: DWARF 5, section 2.17; DWARF 4, section 2.17.
#[tactic(auto, unfolding(tree_model::specs::Pieces::pieces))]
pub fn pieces(
    alloc: Global,
    elf: &Elf<'_>,
    of: &InUnit<'_>,
    before: u64,
    entry: &Entry<'_, '_>,
    lists: &mut Lists,
) -> Result<Vec<(u64, u64)>, Stop>
    requires few { before ≤ 2 ^ 26 }
    requires known { RemembersLists elf.now (range_sections_of of.now.parts) lists.old }
    ensures told { GivesUnlessNoMemory (λ pieces. pieces.items) result
        (pieces_told elf.now (in_unit of.now) before entry.now) }
    ensures known { RemembersLists elf.now (range_sections_of of.now.parts) lists.new }
{
    let live = live_of(alloc, elf, of, entry, lists)?;
    let too_many = live.len() as u64 > MAX_PIECES - before;
    let place = Place::in_binary(entry.at as usize, Kind::TooManyRanges);
    refuse_if(too_many, place)?;
    Ok(live)
}

/// Those ranges that an entry spells that are code of the file: by `DW_AT_ranges` where it stands,
/// else by `DW_AT_low_pc` and `DW_AT_high_pc` where both do, else none.
#[tactic(auto, unfolding(tree_model::specs::Pieces::spelled_ranges))]
fn live_of(
    alloc: Global,
    elf: &Elf<'_>,
    of: &InUnit<'_>,
    entry: &Entry<'_, '_>,
    lists: &mut Lists,
) -> Result<Vec<(u64, u64)>, Stop>
    requires { RemembersLists elf.now (range_sections_of of.now.parts) lists.old }
    ensures told { GivesUnlessNoMemory (λ live. live.items) result
        (live_spelled elf.now (in_unit of.now) entry.now) }
    ensures known { RemembersLists elf.now (range_sections_of of.now.parts) lists.new }
{
    if let Some(list) = attribute(&entry.found, DW_AT_RANGES) {
        return lists.live_ranges(alloc, elf, of, &list);
    }
    let mut ranges = by_ends(alloc, of, entry)?;
    keep_live(&mut ranges, elf);
    Ok(ranges)
}

/// Keeps those of some ranges that are code of the file, in no more room than they take, since each
/// entry keeps its own.
fn keep_live(ranges: &mut Vec<(u64, u64)>, elf: &Elf<'_>)
    ensures { ranges.new.items ≡ live_ranges elf.now ranges.old.items }
{
    ranges.retain(|range| elf.runs(range.0, range.1));
    ranges.shrink_to_fit();
}
