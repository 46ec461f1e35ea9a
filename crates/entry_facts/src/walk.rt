// A walk over a range list, up to its end or to a place from which on it is known.
ghost use Rattle.std.specs.Prelude.{◌≡◌, ◌+◌, ◌≤◌, ◌++◌, ℕ, Bool, List, IfOk, IfSome, OnOk};
ghost use Rattle.std.specs.Option.{option_to_list};
ghost use Rattle.byte_view.specs.Cursor.{Cursor};
ghost use Rattle.dwarf_ranges.specs.Meaning.{range_sections_of};
ghost use Rattle.dwarf_strings.specs.Meaning.{bases_of};
ghost use Rattle.range_model.specs.Lists.{RangeSections, Resolves, max_entries};
ghost use Rattle.range_model.specs.Texts.{address_of};
ghost use Rattle.tree_model.specs.Pieces.{live_ranges};
ghost use Rattle.entry_facts.specs.Lists.{IsRest, RemembersLists, Stands, section_by};
ghost use Rattle.entry_facts.specs.Walk.{IsReading, IsWalked, Steps, Walks};

use crate::in_unit::InUnit;
use crate::lists::Lists;
use crate::tail::{ListMark, Rest, Walked};
use byte_view::Cur;
use dwarf_ranges::{MAX_ENTRIES, RangeList, next_step};
use elf_sections::Elf;
use refusal::{Kind, NoMemory, Place, Stop, refuse_if};
use std::alloc::Global;

/// A list of so many entries is long. So often its reader marks where it stands.
pub(crate) const LONG: u64 = 32;

/// A reader of a list.
#[derive(Drop)]
pub(crate) struct ListWalk<'a> {
    pub cur: Cur<'a>,
    pub base: u64,
    pub passed: u64,
    pub live: Vec<(u64, u64)>,
    pub marks: Vec<ListMark>,
}

/// Adds a range, if there is one and it is code.
fn add_live(
    live: &mut Vec<(u64, u64)>,
    elf: &Elf<'_>,
    range: Option<(u64, u64)>,
) -> Result<(), NoMemory>
    ensures { OnOk result
        (live.new.items ≡ live.old.items ++ live_ranges elf.now (option_to_list range)) }
{
    match range {
        Some(range) if elf.runs(range.0, range.1) => Ok(live.push(range)?),
        _ => Ok(()),
    }
}

impl<'a> ListWalk<'a> {
    /// Passes an entry, if the list does not end here.
    fn step(&mut self, elf: &Elf<'_>, of: &InUnit<'_>, pairs: bool) -> Result<bool, Stop>
        ensures { let sections = range_sections_of of.now.parts in
            let resolve = address_of sections.texts (bases_of of.now.bases) in
            (start : Cursor) (first_base : ℕ)
            → IsReading elf.now sections resolve pairs start first_base self.old
            → Steps elf.now sections resolve pairs start first_base self.old self.new result }
    {
        let texts = &of.parts.texts;
        let Some(step) = next_step(&mut self.cur, pairs, self.base, texts, &of.bases)? else {
            return Ok(false);
        };
        let place = Place::in_binary(step.at, Kind::TooManyRanges);
        refuse_if(self.passed >= MAX_ENTRIES, place)?;
        add_live(&mut self.live, elf, step.range)?;
        self.base = step.base;
        self.passed += 1;
        Ok(true)
    }

    /// Marks where the reader stands: at the first entry, and after each so many.
    fn mark(&mut self) -> Result<(), NoMemory>
        ensures reading { (file : List ℕ) (sections : RangeSections) (resolve : Resolves)
            (pairs : Bool) (start : Cursor) (first_base : ℕ)
            → OnOk result (IsReading file sections resolve pairs start first_base self.old
            → IsReading file sections resolve pairs start first_base self.new) }
        ensures stays { self.new.cur ≡ self.old.cur }
    {
        if self.passed % LONG != 0 {
            return Ok(());
        }
        let mark = ListMark {
            at: self.cur.at() as u64,
            base: self.base,
            passed: self.passed,
            found: self.live.len(),
        };
        Ok(self.marks.push(mark)?)
    }

    /// Whether what is left of a list is looked up where the reader stands: at the first entry, and
    /// at 32 in a row behind 32 entries, 64, 128 and so on, among which any list has a mark.
    fn is_looked_up(&self) -> bool {
        self.passed == 0 || (self.passed / LONG).is_power_of_two()
    }

    /// What is left of a list where the reader stands, if it is looked up there and known.
    fn rest(
        &self,
        alloc: Global,
        of: &InUnit<'_>,
        pairs: bool,
        lists: &Lists,
    ) -> Result<Option<Rest>, NoMemory>
        ensures { let sections = range_sections_of of.now.parts in
            let resolve = address_of sections.texts (bases_of of.now.bases) in
            (file : List ℕ) → RemembersLists file sections lists.now
            → Stands (section_by sections pairs) self.now.cur
            → IfOk result (λ known. IfSome known (λ rest.
            (self.now.passed + rest.entries ≤ max_entries)
            × IsRest file resolve pairs self.now.cur self.now.base rest.entries rest.live.items)) }
    {
        if self.passed > MAX_ENTRIES || !self.is_looked_up() {
            return Ok(None);
        }
        let most = MAX_ENTRIES - self.passed;
        lists.rest_at(alloc, of, pairs, self.cur.at() as u64, self.base, most)
    }
}

/// The list that was read, the rest of which is this.
fn with_rest(walk: ListWalk<'_>, rest: Rest) -> Result<Walked, NoMemory>
    requires { walk.passed + rest.entries ≤ max_entries }
    ensures { (file : List ℕ) (sections : RangeSections) (resolve : Resolves) (pairs : Bool)
        (start : Cursor) (first_base : ℕ)
        → IsReading file sections resolve pairs start first_base walk.entry
        → IsRest file resolve pairs walk.entry.cur walk.entry.base rest.entries rest.live.items
        → IfOk result (λ walked. IsWalked file sections resolve pairs start first_base
        walked.entries walked.live.items walked.marks.items) }
{
    let mut live = walk.live;
    let mut more = rest.live;
    live.append(&mut more)?;
    Ok(Walked {
        entries: walk.passed + rest.entries,
        live,
        marks: walk.marks,
    })
}

/// Reads a list, up to its end or to a place from which on it is known.
pub(crate) fn read_list(
    alloc: Global,
    elf: &Elf<'_>,
    of: &InUnit<'_>,
    list: RangeList<'_>,
    lists: &Lists,
) -> Result<Walked, Stop>
    requires known { RemembersLists elf.now (range_sections_of of.now.parts) lists.now }
    requires stands { Stands (section_by (range_sections_of of.now.parts) list.pairs) list.cur }
    ensures { let sections = range_sections_of of.now.parts in
        Walks elf.now sections (address_of sections.texts (bases_of of.now.bases))
        list.entry.pairs list.entry.cur of.now.base result }
{
    let pairs = list.pairs;
    let mut walk = ListWalk {
        cur: list.cur,
        base: of.base,
        passed: 0,
        live: Vec::new(alloc),
        marks: Vec::new(alloc),
    };
    'entries: loop {
        if let Some(rest) = walk.rest(alloc, of, pairs, lists)? {
            return Ok(with_rest(walk, rest)?);
        }
        walk.mark()?;
        if !walk.step(elf, of, pairs)? {
            return Ok(Walked {
                entries: walk.passed,
                live: walk.live,
                marks: walk.marks,
            });
        }
    }
}
