// The entries of a unit, one behind the other.
ghost use Rattle.std.specs.Prelude.{◌≡◌, ◌+◌, ◌-◌, ◌<◌, ◌≤◌, ◌^◌, length, OnOk};
ghost use Rattle.entry_facts.specs.Meaning.{Extends};
ghost use Rattle.tree_model.specs.Pieces.{max_pieces, pieces as pieces_told};
ghost use Rattle.dwarf_ranges.specs.Meaning.{range_sections_of};
ghost use Rattle.entry_facts.specs.Lists.{RemembersLists};
ghost use Rattle.entry_facts.specs.Told.{GivesUnlessNoMemory, in_unit};
ghost use Rattle.member_lists.specs.Frames.{SoFar as so_far_told, frame_above};
ghost use Rattle.tree_model.specs.Members.{Told};
ghost use Rattle.member_lists.specs.Collecting.{next_call as next_call_told, next_entry as next_entry_told, next_function as next_function_told};
ghost use Rattle.inline_tree.specs.Told.{Advances, CountsCalls, IsSoFar, Knows, source_of};

use crate::collected::Collected;
use crate::member::{call_of, function_of};
use crate::source::Source;
use dwarf_info::{DW_TAG_INLINED_SUBROUTINE, DW_TAG_SUBPROGRAM, Entry};
use entry_facts::{InUnit, Lists, pieces};
use member_lists::{EntryFrame, SoFar};
use refusal::{Kind, Place, Stop};
use std::alloc::Global;

/// The deepest that inlined calls can stand.
const MAX_CALLS: u8 = 255;

/// The pieces of an entry behind those that were read so far.
fn pieces_behind<'a>(
    alloc: Global,
    source: &Source<'a, '_>,
    of: &InUnit<'a>,
    entry: &Entry<'a, '_>,
    before: &SoFar,
    lists: &mut Lists,
) -> Result<Vec<(u64, u64)>, Stop>
    requires few { before.now.pieces ≤ max_pieces }
    requires lists { RemembersLists source.now.elf.now (range_sections_of of.now.parts) lists.old }
    ensures told { GivesUnlessNoMemory (λ pieces. pieces.items) result
        (pieces_told source.now.elf.now (in_unit of.now) before.now.pieces entry.now) }
    ensures lists { RemembersLists source.now.elf.now (range_sections_of of.now.parts) lists.new }
{
    pieces(alloc, source.elf, of, before.pieces(), entry, lists)
}

/// Reads a subprogram: a function, where it has pieces.
fn next_function<'a>(
    alloc: Global,
    source: &Source<'a, '_>,
    of: &InUnit<'a>,
    entry: &Entry<'a, '_>,
    all: &mut Collected<'a>,
) -> Result<(), Stop>
    requires room { length all.old.names < 2 ^ 32 - 1 }
    requires few { all.old.members.pieces ≤ max_pieces }
    requires known { Knows (source_of source.now) all.old.names all.old.origins }
    requires lists { RemembersLists source.now.elf.now (range_sections_of of.now.parts)
        all.old.lists }
    ensures read { (told : so_far_told Told) → IsSoFar all.old.names told all.old.members
        → Advances all.new.names result all.new.members
        (next_function_told (source_of source.now) (in_unit of.now) entry.now told) }
    ensures names { Extends all.old.names all.new.names }
    ensures few { OnOk result (all.new.members.pieces ≤ max_pieces) }
    ensures known { OnOk result (Knows (source_of source.now) all.new.names all.new.origins) }
    ensures lists { OnOk result
        (RemembersLists source.now.elf.now (range_sections_of of.now.parts) all.new.lists) }
{
    let pieces = pieces_behind(alloc, source, of, entry, &all.members, &mut all.lists)?;
    if pieces.is_empty() {
        all.members.pass(entry.depth, EntryFrame::outside())?;
        return Ok(());
    }
    let count = pieces.len() as u64;
    let origin = source.origin(entry, &mut all.names, &mut all.origins)?;
    let function = function_of(entry, origin, pieces);
    all.members
        .add_function(alloc, entry.depth, function, count)?;
    Ok(())
}

/// How many calls lead up to one below a frame, itself included.
///
/// # Errors
/// `InlineTooDeep` at the entry, where they are more than 255.
fn calls_below(above: &EntryFrame, entry: &Entry<'_, '_>) -> Result<u8, Place>
    ensures { CountsCalls entry.now.at above.now.calls result }
{
    if above.calls == MAX_CALLS {
        return Err(Place::in_binary(entry.at as usize, Kind::InlineTooDeep));
    }
    Ok(above.calls + 1)
}

/// Reads an inlined subroutine: a call, where it has pieces.
fn next_call<'a>(
    alloc: Global,
    source: &Source<'a, '_>,
    of: &InUnit<'a>,
    entry: &Entry<'a, '_>,
    all: &mut Collected<'a>,
) -> Result<(), Stop>
    requires room { length all.old.names < 2 ^ 32 - 1 }
    requires few { all.old.members.pieces ≤ max_pieces }
    requires known { Knows (source_of source.now) all.old.names all.old.origins }
    requires lists { RemembersLists source.now.elf.now (range_sections_of of.now.parts)
        all.old.lists }
    ensures read { (told : so_far_told Told) → IsSoFar all.old.names told all.old.members
        → Advances all.new.names result all.new.members
        (next_call_told (source_of source.now) (in_unit of.now) entry.now
        (frame_above entry.now.depth told.frames) told) }
    ensures names { Extends all.old.names all.new.names }
    ensures few { OnOk result (all.new.members.pieces ≤ max_pieces) }
    ensures known { OnOk result (Knows (source_of source.now) all.new.names all.new.origins) }
    ensures lists { OnOk result
        (RemembersLists source.now.elf.now (range_sections_of of.now.parts) all.new.lists) }
{
    let above = all.members.frame_above(entry.depth);
    let calls = calls_below(&above, entry)?;
    let pieces = pieces_behind(alloc, source, of, entry, &all.members, &mut all.lists)?;
    if pieces.is_empty() {
        let function = None;
        all.members
            .pass(entry.depth, EntryFrame { calls, function })?;
        return Ok(());
    }
    let count = pieces.len() as u64;
    let origin = source.origin(entry, &mut all.names, &mut all.origins)?;
    let call = call_of(calls, entry, origin, pieces);
    let function = above.function;
    all.members
        .add_call(entry.depth, EntryFrame { calls, function }, call, count)?;
    Ok(())
}

/// Reads the next entry. One that is neither a subprogram nor an inlined subroutine is passed
/// through.
#[tactic(auto, unfolding(member_lists::specs::Collecting::next_entry))]
pub(crate) fn next_entry<'a>(
    alloc: Global,
    source: &Source<'a, '_>,
    of: &InUnit<'a>,
    entry: &Entry<'a, '_>,
    all: &mut Collected<'a>,
) -> Result<(), Stop>
    requires room { length all.old.names < 2 ^ 32 - 1 }
    requires few { all.old.members.pieces ≤ max_pieces }
    requires known { Knows (source_of source.now) all.old.names all.old.origins }
    requires lists { RemembersLists source.now.elf.now (range_sections_of of.now.parts)
        all.old.lists }
    ensures read { (told : so_far_told Told) → IsSoFar all.old.names told all.old.members
        → Advances all.new.names result all.new.members
        (next_entry_told (source_of source.now) (in_unit of.now) entry.now told) }
    ensures names { Extends all.old.names all.new.names }
    ensures few { OnOk result (all.new.members.pieces ≤ max_pieces) }
    ensures known { OnOk result (Knows (source_of source.now) all.new.names all.new.origins) }
    ensures lists { OnOk result
        (RemembersLists source.now.elf.now (range_sections_of of.now.parts) all.new.lists) }
{
    if entry.tag == DW_TAG_SUBPROGRAM {
        return next_function(alloc, source, of, entry, all);
    }
    if entry.tag == DW_TAG_INLINED_SUBROUTINE {
        return next_call(alloc, source, of, entry, all);
    }
    let above = all.members.frame_above(entry.depth);
    all.members.pass(entry.depth, above)?;
    Ok(())
}
