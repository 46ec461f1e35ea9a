// What is kept of the range lists that were read.
ghost use Rattle.std.specs.Prelude.{◌≡◌, ◌+◌, ◌≤◌, ℕ, List, All, drop, length, IfOk, IfSome, IsTrue};
ghost use Rattle.byte_view.specs.Cursor.{Cursor};
ghost use Rattle.dwarf_ranges.specs.Meaning.{range_sections_of};
ghost use Rattle.dwarf_strings.specs.Meaning.{bases_of};
ghost use Rattle.range_model.specs.Lists.{RangeSections};
ghost use Rattle.range_model.specs.Texts.{address_of};
ghost use Rattle.entry_facts.specs.Lists.{AddsTail, IsRest, RemembersLists, Stands, live_listed, no_lists, section_by, tail_at};
ghost use Rattle.entry_facts.specs.Told.{GivesUnlessNoMemory, in_unit};
ghost use Rattle.entry_facts.specs.Walk.{FindsList, IsMarked};

use crate::in_unit::InUnit;
use crate::kept::keep_at;
use crate::tail::{ListMark, Rest, Tail, Walked};
use crate::walk::{LONG, read_list};
use dwarf_info::Found;
use dwarf_ranges::{RangeList, list_of};
use dwarf_strings::Bases;
use elf_sections::Elf;
use indexmap::IndexMap;
use refusal::{NoMemory, Place, Stop};
use std::alloc::Global;
use std::marker::Model;

/// What the range lists of a file come to from places on, so that a list to which many entries
/// refer, and lists that end in one another, are read once for a base address. What is kept belongs
/// to one file.
// Why: What a list of 32 entries and more comes to is kept from its first entry on, and from each
// 32nd further on: a mark takes a hundred bytes, an entry two or more. A reader looks for a mark at
// its first entry, and at 32 in a row behind 32 entries, 64, 128 and so on: a short list costs one
// search, a long one some more, and of a list that goes on as a known one does it reads at most
// twice what stands before that, and 64. Of two bases at one place the last one read stays. Places
// are no freer than the file is long, and need no hash by a key.
#[derive(Drop)]
pub struct Lists {
    of_pairs: IndexMap<u64, Tail>,
    coded: IndexMap<u64, Tail>,
    live: Vec<(u64, u64)>,
}

impl Model for Lists {
    ghost use Rattle.entry_facts.specs.Lists.{LongLists};

    ghost Value = { LongLists };

    ghost view = { λ a. record {
      of_pairs = a.of_pairs.entries;
      coded = a.coded.entries;
      live = a.live.items;
    } };
}

impl Tail {
    /// Whether a tail is counted from a base, and by these bases of indexes.
    fn is_by(&self, base: u64, bases: &Bases) -> bool
        ensures { IsTrue result
            → (self.now.base ≡ base) × (bases_of self.now.bases ≡ bases_of bases.now) }
    {
        self.base == base && self.bases == *bases
    }
}

impl Lists {
    /// No lists.
    pub fn new(alloc: Global) -> Lists
        ensures { result ≡ no_lists }
    {
        Lists {
            of_pairs: IndexMap::new(alloc),
            coded: IndexMap::new(alloc),
            live: Vec::new(alloc),
        }
    }

    /// The tail that is kept for a place.
    fn at(&self, pairs: bool, at: u64) -> Option<Tail>
        ensures { result ≡ tail_at self.now pairs at }
    {
        if pairs {
            self.of_pairs.get(&at).copied()
        } else {
            self.coded.get(&at).copied()
        }
    }

    /// What is left of a list from a place on, where that is known and is not too long.
    pub(crate) fn rest_at(
        &self,
        alloc: Global,
        of: &InUnit<'_>,
        pairs: bool,
        at: u64,
        base: u64,
        most: u64,
    ) -> Result<Option<Rest>, NoMemory>
        ensures { let sections = range_sections_of of.now.parts in
            let resolve = address_of sections.texts (bases_of of.now.bases) in
            (file : List ℕ) (cur : Cursor) → RemembersLists file sections self.now
            → cur.at ≡ at → Stands (section_by sections pairs) cur
            → IfOk result (λ known. IfSome known (λ rest. (rest.entries ≤ most)
            × IsRest file resolve pairs cur base rest.entries rest.live.items)) }
    {
        match self.at(pairs, at) {
            Some(tail) if tail.is_by(base, &of.bases) && tail.entries <= most => {
                let Some(live) = self.live.get(tail.from..tail.to) else {
                    return Ok(None);
                };
                Ok(Some(Rest {
                    entries: tail.entries,
                    live: copied(alloc, live)?,
                }))
            }
            _ => Ok(None),
        }
    }

    /// Keeps a tail for a place.
    #[tactic(auto, using(crate::proofs::ListLemmas::adds_tail_lemmas))]
    fn keep_tail(&mut self, pairs: bool, at: u64, tail: Tail) -> Result<(), NoMemory>
        ensures { AddsTail self.old self.new pairs at tail }
    {
        if pairs {
            keep_at(&mut self.of_pairs, at, tail)
        } else {
            keep_at(&mut self.coded, at, tail)
        }
    }

    /// Keeps what a list comes to from a mark on, its live ranges being the last that are kept,
    /// from an index on.
    fn keep_mark(
        &mut self,
        of: &InUnit<'_>,
        pairs: bool,
        entries: u64,
        from: usize,
        mark: &ListMark,
    ) -> Result<(), NoMemory>
        requires counted { mark.now.passed ≤ entries }
        requires within { from + mark.now.found ≤ length self.old.live }
        ensures known { (file : List ℕ) (sections : RangeSections)
            → IsMarked file sections (address_of sections.texts (bases_of of.now.bases)) pairs
            entries (drop from self.old.live) mark.now → RemembersLists file sections self.old
            → RemembersLists file sections self.new }
        ensures live { self.new.live ≡ self.old.live }
    {
        let to = self.live.len();
        let tail = Tail {
            base: mark.base,
            bases: of.bases,
            entries: entries - mark.passed,
            from: from + mark.found,
            to,
        };
        self.keep_tail(pairs, mark.at, tail)
    }

    /// Keeps what a long list comes to from each of its marks on.
    fn keep(&mut self, of: &InUnit<'_>, pairs: bool, walked: &Walked) -> Result<(), NoMemory>
        requires { All (λ mark. (mark.passed ≤ walked.now.entries)
            × (mark.found ≤ length walked.now.live.items)) walked.now.marks.items }
        ensures { (file : List ℕ) (sections : RangeSections)
            → All (IsMarked file sections (address_of sections.texts (bases_of of.now.bases)) pairs
            walked.now.entries walked.now.live.items) walked.now.marks.items
            → RemembersLists file sections self.old → RemembersLists file sections self.new }
    {
        if walked.entries < LONG || walked.marks.is_empty() {
            return Ok(());
        }
        let from = self.live.len();
        self.live.extend_from_slice(&walked.live)?;
        for mark in &walked.marks {
            self.keep_mark(of, pairs, walked.entries, from, mark)?;
        }
        Ok(())
    }

    /// The live ranges of the list that `DW_AT_ranges` leads to, in no more room than they take:
    /// each entry keeps its own.
    pub(crate) fn live_ranges(
        &mut self,
        alloc: Global,
        elf: &Elf<'_>,
        of: &InUnit<'_>,
        found: &Found<'_>,
    ) -> Result<Vec<(u64, u64)>, Stop>
        requires { RemembersLists elf.now (range_sections_of of.now.parts) self.old }
        ensures live { GivesUnlessNoMemory (λ live. live.items) result
            (live_listed elf.now (in_unit of.now) found.now) }
        ensures known { RemembersLists elf.now (range_sections_of of.now.parts) self.new }
    {
        let list = list_at(of, found)?;
        let pairs = list.pairs;
        let walked = read_list(alloc, elf, of, list, self)?;
        self.keep(of, pairs, &walked)?;
        let mut live = walked.live;
        live.shrink_to_fit();
        Ok(live)
    }
}

/// The list that `DW_AT_ranges` leads to.
fn list_at<'a>(of: &InUnit<'a>, found: &Found<'a>) -> Result<RangeList<'a>, Place>
    ensures { (file : List ℕ) → FindsList file (in_unit of.now) found.now result }
{
    match list_of(found.value, of.version, &of.parts, &of.bases) {
        Ok(list) => Ok(list),
        Err(kind) => Err(Place::in_binary(found.at as usize, kind)),
    }
}

/// The same ranges once more.
fn copied(alloc: Global, ranges: &[(u64, u64)]) -> Result<Vec<(u64, u64)>, NoMemory>
    ensures { IfOk result (λ copy. copy.items ≡ ranges.now) }
{
    Ok(ranges.iter().copied().collect(alloc)?)
}
