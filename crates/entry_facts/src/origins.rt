ghost use Rattle.std.specs.Prelude.{◌≡◌, ◌<◌, ◌-◌, ◌^◌, length, IfSome, IsTrue, None, Some};
ghost use Rattle.dwarf_strings.specs.Meaning.{sections_of};
ghost use Rattle.tree_model.specs.Bases.{attribute as attribute_told};
ghost use Rattle.tree_model.specs.Way.{entry_beginning_at as beginning_told, way_from};
ghost use Rattle.tree_model.specs.Origin.{origin as origin_told, said_on};
ghost use Rattle.entry_facts.specs.Meaning.{Extends, GivesOrigin, info_of};
ghost use Rattle.entry_facts.specs.Kept.{AddsKnown, kept_at};
ghost use Rattle.entry_facts.specs.Memo.{LeadsOn, Remembers, SaysNothing, nothing_kept};

use crate::attributes::attribute;
use crate::findings::findings_from;
use crate::info::Info;
use crate::kept::keep_at;
use crate::origin::Origin;
use crate::texts::TextNumbers;
use crate::way::{entry_beginning_at, reference_of, target_of};
use dwarf_info::{
    Attributes, DW_AT_DECL_LINE, DW_AT_LINKAGE_NAME, DW_AT_MIPS_LINKAGE_NAME, DW_AT_NAME, Entry,
};
use indexmap::IndexMap;
use key_types::Names;
use refusal::{NoMemory, Stop};
use std::alloc::Global;
use std::marker::Model;

/// The most steps of a way.
const MAX_STEPS: u32 = 16;

/// Origins of entries, of which those that others lead to are worked out once, and each text of a
/// section is judged once.
///
/// One abstract function is shared by all its inlined calls: its way is gone for the first of them.
/// What is kept belongs to one file and to one list of names.
// Why: Kept is the origin of a target, where what leads there has no name and line of its own. It
// is worked out with one step fewer, so errors and the limit are those of the entry that asks. It
// goes by offsets, no freer than the file is long, and so needs no hash by a key.
#[derive(Drop)]
pub struct Origins {
    known: IndexMap<u64, Origin>,
    texts: TextNumbers,
}

// Clauses see the origins that are kept, and the numbers of names.
impl Model for Origins {
    ghost use Rattle.entry_facts.specs.Memo.{Kept};

    ghost Value = { Kept };

    ghost view = { λ a. record { origins = a.known.entries; texts = a.texts } };
}

impl Origins {
    /// No origins.
    pub fn new(alloc: Global) -> Origins
        ensures { result ≡ nothing_kept }
    {
        Origins {
            known: IndexMap::new(alloc),
            texts: TextNumbers::new(alloc),
        }
    }

    /// The origin that is kept for the entry at an offset.
    fn known_at(&self, at: u64) -> Option<Origin>
        ensures { result ≡ kept_at self.now.origins at }
    {
        self.known.get(&at).copied()
    }

    /// Keeps an origin for the entry at an offset.
    fn keep(&mut self, at: u64, origin: Origin) -> Result<(), NoMemory>
        ensures added { AddsKnown self.old.origins self.new.origins at origin }
        ensures texts { self.new.texts ≡ self.old.texts }
    {
        keep_at(&mut self.known, at, origin)
    }

    /// The name and the line that the way from an entry on says, with so many steps at most, of a
    /// way that began at an offset in the file. `begins_at` is the offset by which the entry was
    /// found, where it was found by one.
    fn said<'a>(
        &mut self,
        info: &Info<'a, '_>,
        began: u64,
        steps: u32,
        entry: &Entry<'a, '_>,
        begins_at: Option<u64>,
        names: &mut Names<'a>,
    ) -> Result<Origin, Stop>
        requires room { length names.old < 2 ^ 32 - 1 }
        requires begins { IfSome begins_at
            (λ at. beginning_told info.now.units.now.entries at ≡ Some entry.now) }
        requires known { Remembers (sections_of info.now.texts.now) (info_of info.now) names.old
            self.old }
        ensures told { GivesOrigin names.new result (said_on (sections_of info.now.texts.now)
            info.now.units.now (way_from (info_of info.now) began steps entry.now)) }
        ensures names { Extends names.old names.new }
        ensures known { Remembers (sections_of info.now.texts.now) (info_of info.now) names.new
            self.new }
    {
        let findings = findings_from(info, began, steps, entry, begins_at)?;
        let name = self.texts.number_said(info, findings.naming(), names)?;
        Ok(Origin {
            name,
            line: findings.line(),
        })
    }

    /// The origin that the way from an entry on says, which is kept for others that lead there.
    fn worked_out<'a>(
        &mut self,
        info: &Info<'a, '_>,
        began: u64,
        at: u64,
        next: &Entry<'a, '_>,
        names: &mut Names<'a>,
    ) -> Result<Origin, Stop>
        requires room { length names.old < 2 ^ 32 - 1 }
        requires begins { beginning_told info.now.units.now.entries at ≡ Some next.now }
        requires known { Remembers (sections_of info.now.texts.now) (info_of info.now) names.old
            self.old }
        ensures told { GivesOrigin names.new result (said_on (sections_of info.now.texts.now)
            info.now.units.now (way_from (info_of info.now) began 15 next.now)) }
        ensures names { Extends names.old names.new }
        ensures known { Remembers (sections_of info.now.texts.now) (info_of info.now) names.new
            self.new }
    {
        let origin = self.said(info, began, MAX_STEPS - 1, next, Some(at), names)?;
        self.keep(at, origin)?;
        Ok(origin)
    }

    /// The name and the start line of an entry, by the first attributes on its way: the entry, the
    /// target of its `DW_AT_abstract_origin`, else of its `DW_AT_specification`, and so on, up to
    /// an entry without either, a signature, or a unit that was passed over.
    ///
    /// The name is that of the first `DW_AT_linkage_name` on the way, else
    /// `DW_AT_MIPS_linkage_name`, else `DW_AT_name`. It is none where its text can be none in a
    /// profile: an empty one, one that holds white space, another control byte or a colon, or one
    /// that begins with `#`, `!` or a digit.
    ///
    /// # Errors
    /// The first of these that is met: `BadReference` at a reference that leads to no entry;
    /// `OriginTooLong` at the entry, for a 17th reference; and what `dwarf_strings::text` answers,
    /// at the value of the name. `NoMemory` where the names, or what is kept, get no room.
    ///
    /// Source: DWARF 5, sections 2.13.2, 2.14, 2.15 and 3.3.8.
    pub fn origin_of<'a>(
        &mut self,
        info: &Info<'a, '_>,
        entry: &Entry<'a, '_>,
        names: &mut Names<'a>,
    ) -> Result<Origin, Stop>
        requires room { length names.old < 2 ^ 32 - 1 }
        requires known { Remembers (sections_of info.now.texts.now) (info_of info.now) names.old
            self.old }
        ensures told { GivesOrigin names.new result (origin_told (sections_of info.now.texts.now)
            (info_of info.now) entry.now) }
        ensures names { Extends names.old names.new }
        ensures known { Remembers (sections_of info.now.texts.now) (info_of info.now) names.new
            self.new }
    {
        let Some(at) = leads_on(info, entry) else {
            return self.said(info, entry.at, MAX_STEPS, entry, None, names);
        };
        if let Some(origin) = self.known_at(at) {
            return Ok(origin);
        }
        match entry_beginning_at(info.units, u128::from(at)) {
            Some(next) => self.worked_out(info, entry.at, at, &next, names),
            None => self.said(info, entry.at, MAX_STEPS, entry, None, names),
        }
    }
}

/// The offset in the file that an entry leads to which has no name and no line of its own.
fn leads_on(info: &Info<'_, '_>, entry: &Entry<'_, '_>) -> Option<u64>
    ensures { IfSome result (LeadsOn (info_of info.now) entry.now) }
{
    if !says_nothing(entry) {
        return None;
    }
    let Some(found) = reference_of(entry) else {
        return None;
    };
    match target_of(info, entry.unit, found.value) {
        Some(at) if at <= u128::from(u64::MAX) => Some(at as u64),
        _ => None,
    }
}

/// Whether an entry has no name and no line of its own.
fn says_nothing(entry: &Entry<'_, '_>) -> bool
    ensures { IsTrue result → SaysNothing entry.now }
{
    lacks(&entry.found, DW_AT_LINKAGE_NAME)
        && lacks(&entry.found, DW_AT_MIPS_LINKAGE_NAME)
        && lacks(&entry.found, DW_AT_NAME)
        && lacks(&entry.found, DW_AT_DECL_LINE)
}

/// Whether an entry lacks the attribute of a name.
fn lacks(found: &Attributes<'_, '_>, name: u64) -> bool
    ensures { IsTrue result → attribute_told name found.now ≡ None }
{
    attribute(found, name).is_none()
}
