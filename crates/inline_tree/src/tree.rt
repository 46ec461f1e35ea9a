// The units, one behind the other.
ghost use Rattle.std.specs.Prelude.{◌≡◌, ◌+◌, ◌-◌, ◌<◌, ◌≤◌, ◌^◌, length, IfOk, OnOk};
ghost use Rattle.std.specs.Result.{result_err};
ghost use Rattle.refusal.specs.Place.{JudgesUnlessNoMemory};
ghost use Rattle.dwarf_ranges.specs.Meaning.{range_sections_of};
ghost use Rattle.entry_facts.specs.Lists.{RemembersLists};
ghost use Rattle.entry_facts.specs.Told.{in_unit};
ghost use Rattle.member_lists.specs.Frames.{SoFar as so_far_told, all_members};
ghost use Rattle.tree_model.specs.Members.{Told};
ghost use Rattle.tree_model.specs.Pieces.{max_pieces};
ghost use Rattle.tree_model.specs.Tree.{entries_of_unit, members as members_told};
ghost use Rattle.member_lists.specs.Collecting.{next_entries as next_entries_told, next_unit as next_unit_told};
ghost use Rattle.inline_tree.specs.Told.{Advances, Grows, IsMadeOf, IsSoFar, Knows, source_of};

use crate::collected::Collected;
use crate::entries::next_entry;
use crate::source::Source;
use chain_model::Member;
use dwarf_info::Unit;
use entry_facts::{InUnit, base_address, bases_of};
use key_types::Names;
use member_lists::SoFar;
use refusal::{NoMemory, Stop};
use std::alloc::Global;

/// The functions of a file with the calls inlined into them.
#[derive(Drop)]
pub struct InlineTree<'a> {
    /// The names of functions and inlined calls, lent from the file.
    pub names: Names<'a>,
    /// One function behind the other in the order of their entries, each with its calls in
    /// pre-order. Only those with pieces are members, and of calls only those that stand below
    /// members of their function alone.
    pub members: Vec<Member>,
}

/// The same, as they are collected. They borrow nothing of the units, which can be given back
/// before all members are put into one list.
#[derive(Drop)]
pub struct Gathered<'a> {
    /// The names of functions and inlined calls, lent from the file.
    pub names: Names<'a>,
    /// The functions so far, each with the calls inlined into it, and the entries that are open at
    /// the last one read.
    pub members: SoFar,
}

impl<'a> Gathered<'a> {
    ghost use Rattle.std.specs.Prelude.{◌≡◌, IfOk};
    ghost use Rattle.member_lists.specs.Frames.{all_members};

    /// The members in one list.
    pub fn into_tree(self, alloc: Global) -> Result<InlineTree<'a>, NoMemory>
        ensures names { IfOk result (λ tree. tree.names ≡ self.entry.names) }
        ensures members { IfOk result
            (λ tree. tree.members.items ≡ all_members self.entry.members) }
    {
        let Gathered { names, members } = self;
        let members = members.into_members(alloc)?;
        Ok(InlineTree { names, members })
    }
}

/// Reads the entries of a unit.
fn next_entries<'a>(
    alloc: Global,
    source: &Source<'a, '_>,
    of: &InUnit<'a>,
    unit: &Unit,
    all: &mut Collected<'a>,
) -> Result<(), Stop>
    requires room { length all.old.names + unit.now.count < 2 ^ 32 - 1 }
    requires few { all.old.members.pieces ≤ max_pieces }
    requires known { Knows (source_of source.now) all.old.names all.old.origins }
    requires lists { RemembersLists source.now.elf.now (range_sections_of of.now.parts)
        all.old.lists }
    ensures read { (told : so_far_told Told) → IsSoFar all.old.names told all.old.members
        → Advances all.new.names result all.new.members
        (next_entries_told (source_of source.now) (in_unit of.now)
        (entries_of_unit source.now.units.now.entries unit.now) told) }
    ensures names { Grows unit.now.count all.old.names all.new.names }
    ensures few { OnOk result (all.new.members.pieces ≤ max_pieces) }
    ensures known { OnOk result (Knows (source_of source.now) all.new.names all.new.origins) }
    ensures lists { OnOk result
        (RemembersLists source.now.elf.now (range_sections_of of.now.parts) all.new.lists) }
{
    for entry in source.units.entries_of(unit) {
        next_entry(alloc, source, of, &entry, all)?;
    }
    Ok(())
}

/// Reads the unit of a number: its base address, then its entries.
#[tactic(auto, unfolding(member_lists::specs::Collecting::next_unit))]
fn next_unit<'a>(
    alloc: Global,
    source: &Source<'a, '_>,
    number: u32,
    unit: &Unit,
    all: &mut Collected<'a>,
) -> Result<(), Stop>
    requires room { length all.old.names + unit.now.count < 2 ^ 32 - 1 }
    requires few { all.old.members.pieces ≤ max_pieces }
    requires known { Knows (source_of source.now) all.old.names all.old.origins }
    requires lists { RemembersLists source.now.elf.now (range_sections_of source.now.parts.now)
        all.old.lists }
    ensures read { (told : so_far_told Told) → IsSoFar all.old.names told all.old.members
        → Advances all.new.names result all.new.members
        (next_unit_told (source_of source.now) number unit.now told) }
    ensures names { Grows unit.now.count all.old.names all.new.names }
    ensures few { OnOk result (all.new.members.pieces ≤ max_pieces) }
    ensures known { OnOk result (Knows (source_of source.now) all.new.names all.new.origins) }
    ensures lists { OnOk result
        (RemembersLists source.now.elf.now (range_sections_of source.now.parts.now) all.new.lists) }
{
    let base = base_address(source.units, number, &source.parts.texts)?;
    let of = InUnit {
        parts: *source.parts,
        version: unit.version,
        base,
        bases: bases_of(source.units, number),
    };
    all.members.begin_unit();
    next_entries(alloc, source, &of, unit, all)
}

/// The functions of a file with the calls inlined into them, as they are collected, and their
/// names: at most one for each entry.
///
/// # Errors
/// The first bad place, unit by unit: that of the root's base address; then of each function and
/// inlined call in order `InlineTooDeep` at the entry below 255 others, those of `entry_facts`,
/// and where it has pieces those of `entry_facts`. `NoMemory` where memory is refused.
///
/// Source: DWARF 5, sections 2.17, 3.3.1 and 3.3.8.
pub fn gather<'a>(alloc: Global, source: &Source<'a, '_>) -> Result<Gathered<'a>, Stop>
    ensures judged { let told = members_told (source_of source.now) in
        JudgesUnlessNoMemory (result_err told) result
        (λ made. IsMadeOf made.names told (all_members made.members)) }
    ensures few_names { IfOk result
        (λ made. length made.names ≤ length source.now.units.now.entries) }
{
    let mut all = Collected::new(alloc)?;
    let units = source.units.units();
    for (number, unit) in units.iter().enumerate() {
        next_unit(alloc, source, number as u32, unit, &mut all)?;
    }
    let Collected { names, members, .. } = all;
    Ok(Gathered { names, members })
}

/// The functions of a file with the calls inlined into them, and their names: at most one for each
/// entry.
///
/// # Errors
/// Those of `gather`.
pub fn make<'a>(alloc: Global, source: &Source<'a, '_>) -> Result<InlineTree<'a>, Stop>
    ensures judged { let told = members_told (source_of source.now) in
        JudgesUnlessNoMemory (result_err told) result
        (λ made. IsMadeOf made.names told made.members.items) }
    ensures few_names { IfOk result
        (λ made. length made.names ≤ length source.now.units.now.entries) }
{
    let gathered = gather(alloc, source)?;
    let tree = gathered.into_tree(alloc)?;
    Ok(tree)
}
