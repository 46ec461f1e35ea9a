// A profile text that is being read, line by line.
ghost use Rattle.std.specs.Prelude.{◌≡◌, ◌<◌, ◌+◌, ◌-◌, ◌^◌, ◌++◌, ◌∷◌, [], length, map, IfOk, OnOk, List, ℕ};
ghost use Rattle.key_types.specs.declared.key.Key.{Key};
ghost use Rattle.profile_model.specs.Profile.{body_line, call_line, function_line};
ghost use Rattle.profile_text.specs.Draft as spec;
ghost use Rattle.profile_text.specs.Said.{pair_of};

use crate::item::{Item, Profile, What};
use crate::path::Path;
use crate::said::{Location, Named};
use crate::stamps::Stamps;
use item_lists::Items;
use key_types::{Frame, KeyId, Keys, Names};
use refusal::{ItemStop, Kind, NoMemory};
use std::alloc::{AllocFailed, Global};

/// The most spaces that a line may begin with.
const MAX_DEPTH: usize = 256;

/// The place of a line that can be open, which is told by its steps alone.
const NO_PLACE: Location = Location { offset: 0, disc: 0 };

/// What was read so far: the lines that are open, and what tells whether a line stood before.
#[derive(Drop)]
pub(crate) struct ProfileDraft {
    path: Path,
    /// Keys of all functions and calls, with offset and discriminator 0.
    opened: Keys,
    /// The keys of body lines have the stamp 1.
    places: Stamps,
    /// The last stamp of each target's name.
    called: Stamps,
    items: Vec<Item>,
}

impl ProfileDraft {
    /// Nothing was read. There is room for about so many functions and calls.
    pub(crate) fn new(alloc: Global, room: usize) -> Result<ProfileDraft, NoMemory>
        ensures { IfOk result spec.IsNew }
    {
        let mut opened = Keys::new(alloc)?;
        opened.reserve(room);
        Ok(ProfileDraft {
            path: Path::new(alloc),
            opened,
            places: Stamps::new(alloc),
            called: Stamps::new(alloc),
            items: Vec::new(alloc),
        })
    }

    /// The numbers that were read.
    pub(crate) fn close(self) -> Profile
        ensures { result.items ≡ self.items.items }
    {
        Profile {
            items: Items::new(self.items),
        }
    }

    /// Takes in a function's line.
    pub(crate) fn add_function<'a>(
        &mut self,
        alloc: Global,
        at: u64,
        name: &'a [u8],
        head: u64,
        names: &mut Names<'a>,
    ) -> Result<(), ItemStop>
        requires names { length names.old < 2 ^ 32 - 1 }
        requires opened { length self.old.opened < 2 ^ 32 - 1 }
        ensures read { (keys : List Key) (total : ℕ) → spec.TakesIn names.old keys self.old at
            (function_line name.now total head) result names.new keys self.new }
    {
        let id = names.add(name)?;
        self.path.begin(id);
        if !open_first(alloc, &self.path, &mut self.opened)? {
            return Err(ItemStop::Refused(Kind::KeyTwice));
        }
        put(&mut self.items, at, What::Head(id), head)?;
        Ok(())
    }

    /// Takes in a body line.
    pub(crate) fn add_body<'a>(
        &mut self,
        alloc: Global,
        at: u64,
        depth: usize,
        location: Location,
        count: u64,
        targets: &[Named<'a>],
        names: &mut Names<'a>,
        keys: &mut Keys,
    ) -> Result<(), ItemStop>
        requires deep { 0 < depth }
        requires names { length names.old + length targets.now < 2 ^ 32 - 1 }
        requires keys { length keys.old < 2 ^ 32 - 1 }
        ensures { spec.TakesIn names.old keys.old self.old at
            (body_line depth location.offset location.disc count (map pair_of targets.now)) result
            names.new keys.new self.new }
    {
        if let Some(kind) = cause_of_depth(&self.path, depth) {
            return Err(ItemStop::Refused(kind));
        }
        names.each_once();
        self.path.close(depth);
        let key = keys.add(self.path.key(alloc, location)?)?;
        if self.places.stamp(key.0, 1)? {
            return Err(ItemStop::Refused(Kind::KeyTwice));
        }
        put(&mut self.items, at, What::Count(key), count)?;
        put_targets(&mut self.items, &mut self.called, at, key, targets, names)
    }

    /// Takes in the line of an inlined call.
    pub(crate) fn add_call<'a>(
        &mut self,
        alloc: Global,
        depth: usize,
        location: Location,
        callee: Named<'a>,
        names: &mut Names<'a>,
    ) -> Result<(), ItemStop>
        requires deep { 0 < depth }
        requires names { length names.old < 2 ^ 32 - 1 }
        requires opened { length self.old.opened < 2 ^ 32 - 1 }
        ensures read { (keys : List Key) (at : ℕ) → spec.TakesIn names.old keys self.old at
            (call_line depth location.offset location.disc callee.entry.name.now
            callee.entry.times) result names.new keys self.new }
    {
        if let Some(kind) = cause_of_depth(&self.path, depth) {
            return Err(ItemStop::Refused(kind));
        }
        let name = names.add(callee.name)?;
        self.path.close(depth);
        self.path.open(Frame {
            name,
            offset: location.offset,
            disc: location.disc,
        })?;
        if !open_first(alloc, &self.path, &mut self.opened)? {
            return Err(ItemStop::Refused(Kind::KeyTwice));
        }
        Ok(())
    }
}

/// Puts the targets of a key behind the other numbers.
fn put_targets<'a>(
    items: &mut Vec<Item>,
    called: &mut Stamps,
    at: u64,
    key: KeyId,
    targets: &[Named<'a>],
    names: &mut Names<'a>,
) -> Result<(), ItemStop>
    requires { length names.old + length targets.now < 2 ^ 32 - 1 }
    ensures { spec.AreOld called.old (length items.old.items) (length names.old)
        → spec.PutsTargets names.old items.old.items at key (map pair_of targets.now) result
        names.new called.new items.new.items }
{
    let stamp = items.len() as u64;
    for target in targets {
        let name = names.add(target.name)?;
        if called.stamp(name.0, stamp)? {
            return Err(ItemStop::Refused(Kind::KeyTwice));
        }
        put(items, at, What::Target(key, name), target.times)?;
    }
    Ok(())
}

/// Adds the key of a path to those of lines that were opened, and answers whether it is the first
/// one.
fn open_first(alloc: Global, path: &Path, opened: &mut Keys) -> Result<bool, NoMemory>
    requires path { 0 < length path.now }
    requires few { length opened.old < 2 ^ 32 - 1 }
    ensures { IfOk result (λ fresh. spec.IsOpened path.now opened.old fresh opened.new) }
{
    let count = opened.len();
    opened.add(path.key(alloc, NO_PLACE)?)?;
    Ok(count < opened.len())
}

/// Puts a number behind the others.
fn put(items: &mut Vec<Item>, line: u64, what: What, times: u64) -> Result<(), NoMemory>
    ensures { OnOk result (items.new.items ≡ items.old.items
        ++ record { line = line; what = what; times = times } ∷ []) }
{
    items.push(Item { line, what, times })?;
    Ok(())
}

/// Why a line of this depth cannot stand where these lines are open.
fn cause_of_depth(path: &Path, depth: usize) -> Option<Kind>
    ensures { result ≡ spec.cause_of_depth (length path.now) depth }
{
    if depth > MAX_DEPTH {
        Some(Kind::TooDeep)
    } else if depth > path.depth() {
        Some(Kind::BadIndent)
    } else {
        None
    }
}
