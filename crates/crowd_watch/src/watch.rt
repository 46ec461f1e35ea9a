// Where the hashes of a table's values fall.
ghost use Rattle.std.specs.Prelude.{◌≡◌, ◌<◌, ◌≤◌, ◌+◌, not, slice_get, if◌then◌else◌, true, Some, IfOk, OnOk, OnErr, IsOk};
ghost use Rattle.indexmap.specs.IndexSet.{IsUnchanged, IsUnique, contains, index_set_len, insert_key, spare};

use crate::keyed::Keyed;
use indexmap::IndexSet;
use std::alloc::{AllocFailed, Global};
use std::hash::{BuildHasher, Hash};
use std::mem;

/// How many parts of a table are looked at apart.
const PARTS: u64 = 1024;

/// How many values there are to each group of a full table: in `indexmap` values whose hashes agree
/// in their low bits begin in one group.
const TO_A_GROUP: u64 = 9;

/// How many values lie in each part of a table, by their hashes.
// Why: A fixed hash can be aimed at, and `run` has no source of chance, so the next key is made of
// the hashes of all values so far. Who aims at each key in turn gains little: a table of n values
// takes another only behind 4 √n new ones. A digest of the whole text would have to come to each
// table from above, and an ordered table takes memory at each insert.
#[derive(Debug, Drop)]
pub struct Watch {
    counts: Vec<u32>,
    /// What the table held at most, when its parts were last counted anew.
    capacity: usize,
    groups: u64,
    /// The hashes of all values so far.
    digest: u64,
    /// So many values the table has to have before its key is changed again.
    due: u64,
}

impl Watch {
    /// Watches a table that is empty. No memory is taken.
    pub fn new(alloc: Global) -> Watch {
        Watch {
            counts: Vec::new(alloc),
            capacity: 0,
            groups: 1,
            digest: 0,
            due: 0,
        }
    }

    /// Puts a value into a table, as `insert_full` does, and looks where it fell. `index` is where
    /// it lies, and `is_new` whether it was put there.
    ///
    /// # Errors
    /// `AllocFailed`, never where there is room; the table is then as it was.
    pub fn insert<T: Eq + Hash + Drop>(
        &mut self,
        table: &mut IndexSet<T, Keyed>,
        value: T,
    ) -> Result<(usize, bool), AllocFailed<T>>
        ensures added { IfOk result (λ r. r.1 ≡ not (contains T.eq table.old value)) }
        ensures keys { OnOk result (table.new.keys ≡ insert_key T.eq table.old.keys value) }
        ensures len { IfOk result (λ r. index_set_len table.new
            ≡ index_set_len table.old + (if r.1 then 1 else 0)) }
        ensures within { IfOk result (λ r. r.0 < index_set_len table.new) }
        ensures stored { IfOk result (λ r. (k : T) × (slice_get table.new.keys r.0 ≡ Some k)
            × (T.eq value k ≡ true)) }
        ensures err { OnErr result (IsUnchanged table.old table.new) }
        ensures succeeds { 0 < spare table.old → IsOk result }
        ensures spare { spare table.old ≤ spare table.new + 1 }
        ensures unique { IsUnique T.eq table.new }
    {
        let (index, is_new) = table.insert_full(value)?;
        if is_new {
            self.look(table);
        }
        Ok((index, is_new))
    }

    /// Looks where the last value of a table fell, which is new, and gives the table another key
    /// where values crowd there. Where there is no memory for that, it stays as it is.
    fn look<T: Eq + Hash + Drop>(&mut self, table: &mut IndexSet<T, Keyed>)
        ensures keys { table.new.keys ≡ table.old.keys }
        ensures room { spare table.old ≤ spare table.new }
        ensures unique { IsUnique T.eq table.new }
    {
        let len = table.len() as u64;
        let Some(hash) = last_hash(table) else {
            return;
        };
        self.digest = mixed(self.digest, hash);
        if table.capacity() != self.capacity {
            self.count_anew(table);
            return;
        }
        let part = self.part_of(hash);
        self.count_in(part);
        if self.is_crowded(part) && self.due <= len {
            self.due = len.saturating_add(4 * len.isqrt());
            take_key(table, Keyed::by(self.digest));
            self.count_anew(table);
        }
    }

    /// Counts the values of a table anew, by its key.
    fn count_anew<T: Eq + Hash + Drop>(&mut self, table: &IndexSet<T, Keyed>) {
        self.capacity = table.capacity();
        self.groups = groups_of(self.capacity as u64);
        self.counts.clear();
        if self.counts.resize(PARTS as usize, 0).is_err() {
            return;
        }
        for value in table.as_slice() {
            let part = self.part_of(table.hasher().hash_one(value));
            self.count_in(part);
        }
    }

    /// The part in which a value falls, by its hash.
    fn part_of(&self, hash: u64) -> usize {
        let place = (hash ^ hash >> 32) & (self.groups.saturating_sub(1));
        (place / self.span()) as usize
    }

    /// How many groups a part has.
    fn span(&self) -> u64
        ensures { 0 < result }
    {
        (self.groups / PARTS).max(1)
    }

    /// Counts a value in a part.
    fn count_in(&mut self, part: usize) {
        if let Some(count) = self.counts.get_mut(part) {
            *count = count.saturating_add(1);
        }
    }

    /// Whether more values lie in a part than chance lets.
    fn is_crowded(&self, part: usize) -> bool {
        let full = TO_A_GROUP.saturating_mul(self.span());
        let limit = full.saturating_add(full / 4).saturating_add(64);
        match self.counts.get(part) {
            Some(count) => u64::from(*count) > limit,
            None => false,
        }
    }
}

/// The hash of the last value of a table.
fn last_hash<T: Eq + Hash>(table: &IndexSet<T, Keyed>) -> Option<u64> {
    match table.last() {
        Some(value) => Some(table.hasher().hash_one(value)),
        None => None,
    }
}

/// A digest with one hash more.
fn mixed(digest: u64, hash: u64) -> u64 {
    (digest.rotate_left(23) ^ hash).wrapping_mul(0x9e37_79b9_7f4a_7c15)
}

/// How many groups a table has that holds so many values.
fn groups_of(capacity: u64) -> u64 {
    (capacity / TO_A_GROUP).next_power_of_two()
}

/// Gives a table another key. Where there is no memory for that, it stays as it is.
fn take_key<T: Eq + Hash + Drop>(table: &mut IndexSet<T, Keyed>, key: Keyed)
    ensures keys { table.new.keys ≡ table.old.keys }
    ensures room { spare table.old ≤ spare table.new }
    ensures unique { IsUnique T.eq table.new }
{
    let _len = table.len();
    let room = table.capacity();
    let anew = IndexSet::with_capacity_and_hasher(*table.allocator(), room, key);
    if let Ok(mut anew) = anew {
        anew.append(table).unwrap();
        mem::swap(table, &mut anew);
    }
}
