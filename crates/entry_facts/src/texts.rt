// The numbers of names, by where their texts stand.
ghost use Rattle.std.specs.Prelude.{◌≡◌, ◌<◌, ◌-◌, ◌^◌, length, IfSome, Some};
ghost use Rattle.std.specs.Option.{option_map};
ghost use Rattle.dwarf_strings.specs.Meaning.{sections_of};
ghost use Rattle.tree_model.specs.Origin.{name_said as name_told};
ghost use Rattle.entry_facts.specs.Listed.{IsListed};
ghost use Rattle.entry_facts.specs.Meaning.{Extends, held_of};
ghost use Rattle.entry_facts.specs.Texts.{AddsNumber, GivesNumber, RemembersNames, SaysTextAt, no_numbers, number_at};

use crate::bases::bases_of;
use crate::findings::Held;
use crate::info::Info;
use crate::kept::keep_at;
use crate::name::numbered_name;
use dwarf_forms::Value;
use dwarf_strings::slot;
use indexmap::IndexMap;
use key_types::{NameId, Names};
use refusal::{NoMemory, Stop};
use std::alloc::Global;
use std::marker::Model;

/// Where a text stands: at an offset of `.debug_str`, or of `.debug_line_str`, or in the entry that
/// begins at an offset in the file, as the value of the first attribute of a name.
#[derive(Clone, Copy)]
pub(crate) enum TextPlace {
    Str(u64),
    LineStr(u64),
    InEntry(u64, u64),
}

/// The number of the name that an attribute of an entry says, with the attribute's name.
#[derive(Clone, Copy)]
pub(crate) struct EntryNumber {
    pub attribute: u64,
    pub number: Option<NameId>,
}

/// The numbers of names by where their texts stand, so that a text that many entries refer to is
/// judged once. A text that can be no name has none. Of an entry that has several texts one is
/// kept: a way that leads to it takes its name from one of them alone.
// Why: A long text that many entries refer to would be judged once for each. An entry that was not
// found by its offset keeps nothing.
#[derive(Drop)]
pub(crate) struct TextNumbers {
    str: IndexMap<u64, Option<NameId>>,
    line_str: IndexMap<u64, Option<NameId>>,
    entries: IndexMap<u64, EntryNumber>,
}

impl Model for TextNumbers {
    ghost use Rattle.entry_facts.specs.Texts.{Numbers};

    ghost Value = { Numbers };

    ghost view = { λ a. record {
      str = a.str.entries;
      line_str = a.line_str.entries;
      entries = a.entries.entries;
    } };
}

impl TextNumbers {
    /// No numbers.
    pub fn new(alloc: Global) -> TextNumbers
        ensures { result ≡ no_numbers }
    {
        TextNumbers {
            str: IndexMap::new(alloc),
            line_str: IndexMap::new(alloc),
            entries: IndexMap::new(alloc),
        }
    }

    /// The number that is kept for the text at a place.
    fn at(&self, place: TextPlace) -> Option<Option<NameId>>
        ensures { result ≡ number_at self.now place }
    {
        match place {
            TextPlace::Str(at) => self.str.get(&at).copied(),
            TextPlace::LineStr(at) => self.line_str.get(&at).copied(),
            TextPlace::InEntry(at, attribute) => match self.entries.get(&at) {
                Some(kept) if kept.attribute == attribute => Some(kept.number),
                _ => None,
            },
        }
    }

    /// Keeps a number for the text at a place.
    #[tactic(auto, using(crate::proofs::TextLemmas::adds_lemmas))]
    fn keep(&mut self, place: TextPlace, number: Option<NameId>) -> Result<(), NoMemory>
        ensures { AddsNumber self.old self.new place number }
    {
        match place {
            TextPlace::Str(at) => keep_at(&mut self.str, at, number),
            TextPlace::LineStr(at) => keep_at(&mut self.line_str, at, number),
            TextPlace::InEntry(at, attribute) => {
                let kept = EntryNumber { attribute, number };
                keep_at(&mut self.entries, at, kept)
            }
        }
    }

    /// The number of the name that an attribute says, whose text stands at a place.
    fn of_text_at<'a>(
        &mut self,
        info: &Info<'a, '_>,
        held: Held<'a>,
        place: TextPlace,
        names: &mut Names<'a>,
    ) -> Result<Option<NameId>, Stop>
        requires room { length names.old < 2 ^ 32 - 1 }
        requires stands { SaysTextAt (sections_of info.now.texts.now) info.now.units.now
            (held_of held) place }
        requires known { RemembersNames (sections_of info.now.texts.now) info.now.units.now
            names.old self.old }
        ensures told { GivesNumber names.new result (name_told (sections_of info.now.texts.now)
            info.now.units.now (Some (held_of held.entry))) }
        ensures names { Extends names.old names.new }
        ensures known { RemembersNames (sections_of info.now.texts.now) info.now.units.now
            names.new self.new }
    {
        if let Some(number) = self.at(place) {
            return Ok(number);
        }
        let number = numbered_name(info, held, names)?;
        self.keep(place, number)?;
        Ok(number)
    }

    /// The number of the name that an attribute says.
    fn of_held<'a>(
        &mut self,
        info: &Info<'a, '_>,
        held: Held<'a>,
        names: &mut Names<'a>,
    ) -> Result<Option<NameId>, Stop>
        requires room { length names.old < 2 ^ 32 - 1 }
        requires listed { IsListed info.now.units.now held }
        requires known { RemembersNames (sections_of info.now.texts.now) info.now.units.now
            names.old self.old }
        ensures told { GivesNumber names.new result (name_told (sections_of info.now.texts.now)
            info.now.units.now (Some (held_of held.entry))) }
        ensures names { Extends names.old names.new }
        ensures known { RemembersNames (sections_of info.now.texts.now) info.now.units.now
            names.new self.new }
    {
        match text_place(info, held) {
            Some(place) => self.of_text_at(info, held, place, names),
            None => numbered_name(info, held, names),
        }
    }

    /// The number of the name that an attribute says, if there is one.
    pub fn number_said<'a>(
        &mut self,
        info: &Info<'a, '_>,
        held: Option<Held<'a>>,
        names: &mut Names<'a>,
    ) -> Result<Option<NameId>, Stop>
        requires room { length names.old < 2 ^ 32 - 1 }
        requires listed { IfSome held (IsListed info.now.units.now) }
        requires known { RemembersNames (sections_of info.now.texts.now) info.now.units.now
            names.old self.old }
        ensures told { GivesNumber names.new result (name_told (sections_of info.now.texts.now)
            info.now.units.now (option_map held_of held.entry)) }
        ensures names { Extends names.old names.new }
        ensures known { RemembersNames (sections_of info.now.texts.now) info.now.units.now
            names.new self.new }
    {
        match held {
            Some(held) => self.of_held(info, held, names),
            None => Ok(None),
        }
    }
}

/// Where the text of an attribute stands, if others may lead there.
#[tactic(auto, unfolding(range_model::specs::Texts::text_of))]
fn text_place(info: &Info<'_, '_>, held: Held<'_>) -> Option<TextPlace>
    requires { IsListed info.now.units.now held }
    ensures { IfSome result (SaysTextAt (sections_of info.now.texts.now) info.now.units.now
        (held_of held.entry)) }
{
    match held.value {
        Value::StrAt(at) => Some(TextPlace::Str(at)),
        Value::LineStrAt(at) => Some(TextPlace::LineStr(at)),
        Value::StrIndex(index) => {
            let bases = bases_of(info.units, held.unit);
            match slot(bases.str_offsets, info.texts.str_offsets, bases.wide, index) {
                Ok(at) => Some(TextPlace::Str(at)),
                Err(_) => None,
            }
        }
        Value::Text(_) => match held.stands_in {
            Some(at) => Some(TextPlace::InEntry(at, held.name)),
            None => None,
        },
        _ => None,
    }
}
