// A made-up program: names, keys, and a segment for each key.
ghost use Rattle.std.specs.Prelude.{◌≡◌, ◌≤◌, ◌<◌, ◌+◌, ◌-◌, ◌^◌, ◌*◌, [], IfOk, OnOk, length};
ghost use Rattle.std.specs.List.{AllByRecursion};
ghost use Rattle.key_types.specs.Numbers.{IsNumbered};
ghost use Rattle.profile_bench.specs.Laid.{AreLaid};
ghost use Rattle.profile_tree.specs.Known.{HasNames};

use crate::hits::SEGMENT;
use item_lists::Items;
use key_types::{Frame, Key, KeyId, Keys, NameId, Names, Seg};
use refusal::NoMemory;
use std::alloc::Global;

/// How many bytes a name has.
const NAME: usize = 16;

/// The bytes of so many names, one behind the other.
pub(crate) fn text_of(alloc: Global, names: u32) -> Result<Vec<u8>, NoMemory> {
    let mut text = Vec::new(alloc);
    for name in 0..names {
        text.extend_from_slice(b"the_function")?;
        text.extend_from_slice(&name.to_be_bytes())?;
    }
    Ok(text)
}

/// The names that stand in a text, at least one.
pub(crate) fn names_of(alloc: Global, text: &[u8], names: u32) -> Result<Names<'_>, NoMemory>
    ensures numbered { IfOk result (λ made. IsNumbered made) }
    ensures some { IfOk result (λ made. 0 < length made) }
{
    let mut made = Names::new(alloc)?;
    made.add(b"main")?;
    for name in 1..names {
        made.add(name_in(text, name))?;
    }
    Ok(made)
}

/// The bytes of a name in a text, none where they pass its end.
fn name_in(text: &[u8], name: u32) -> &[u8] {
    let at = name as usize * NAME;
    text.get(at..at + NAME).unwrap_or(b"")
}

/// Keys, with a segment each.
#[derive(Drop)]
pub(crate) struct Laid {
    pub keys: Keys,
    pub segments: Vec<Seg>,
}

impl Laid {
    /// No keys.
    pub(crate) fn new(alloc: Global) -> Result<Laid, NoMemory>
        ensures keys { IfOk result (λ laid. laid.keys ≡ []) }
        ensures segments { IfOk result (λ laid. laid.segments.items ≡ []) }
    {
        Ok(Laid {
            keys: Keys::new(alloc)?,
            segments: Vec::new(alloc),
        })
    }

    /// Lays a key from one address up to another, behind the others.
    pub(crate) fn lay(
        &mut self,
        names: &Names,
        key: Key,
        lo: u64,
        hi: u64,
    ) -> Result<KeyId, NoMemory>
        requires laid { AreLaid (length names.now) lo self.old.keys self.old.segments.items }
        requires room { length self.old.keys < 2 ^ 32 - 1 }
        requires named { HasNames (length names.now) key }
        requires some { lo < hi }
        ensures laid { OnOk result
            (AreLaid (length names.now) hi self.new.keys self.new.segments.items) }
        ensures given { IfOk result (λ id. id.0 < length self.new.keys) }
        ensures one_more { OnOk result (length self.new.keys ≤ length self.old.keys + 1) }
    {
        let key = self.keys.add(key)?;
        self.segments.push(Seg {
            lo,
            hi,
            key,
            factor: 1,
        })?;
        Ok(key)
    }
}

/// So many keys, each with a segment.
pub(crate) fn lay_keys(alloc: Global, names: &Names, keys: u32) -> Result<Laid, NoMemory>
    requires { 0 < length names.now }
    ensures { IfOk result (λ laid.
        AreLaid (length names.now) (keys * 16) laid.keys laid.segments.items) }
{
    let mut laid = Laid::new(alloc)?;
    for number in 0..keys {
        let key = key_of(alloc, number, names.len())?;
        let lo = u64::from(number) * SEGMENT;
        laid.lay(names, key, lo, lo + SEGMENT)?;
    }
    Ok(laid)
}

/// The key of a number: each function has some twenty keys, with up to two calls.
fn key_of(alloc: Global, number: u32, names: u32) -> Result<Key, NoMemory>
    requires { 0 < names }
    ensures { IfOk result (λ key. HasNames names key) }
{
    Ok(Key {
        root: NameId(number % names),
        calls: Items::new(calls_of(alloc, number, names)?),
        offset: (number / names % 1000) as u16,
        disc: number % 5,
    })
}

/// The inlined calls of a key.
fn calls_of(alloc: Global, number: u32, names: u32) -> Result<Vec<Frame>, NoMemory>
    requires { 0 < names }
    ensures { IfOk result (λ calls. AllByRecursion (λ frame. frame.name.0 < names) calls.items) }
{
    let outer = frame_of(number % 7, number, names);
    let inner = frame_of(number % 3, number / 2, names);
    Ok(match number % 3 {
        0 => Vec::new(alloc),
        1 => Vec::from_array(alloc, [outer])?,
        _ => Vec::from_array(alloc, [outer, inner])?,
    })
}

/// A call of a function.
fn frame_of(offset: u32, name: u32, names: u32) -> Frame
    requires some { 0 < names }
    requires small { offset < 2 ^ 16 }
    ensures { result.name.0 < names }
{
    Frame {
        name: NameId(name % names),
        offset: offset as u16,
        disc: 0,
    }
}
