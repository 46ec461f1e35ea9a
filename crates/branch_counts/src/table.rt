// A table of pairs: a row for each distinct pair, found by an index.
ghost use Rattle.std.specs.Prelude.{◌≡◌, ◌+◌, ◌<◌, ◌≤◌, ◌^◌, [], length, IfOk, OnOk, IsOk, replicate};
ghost use Rattle.std.specs.declared.alloc.Global.{Global as GlobalTold};
ghost use Rattle.sample_model.specs.Samples.{ranges_between};
ghost use Rattle.branch_counts.specs.Table.{AddsPairs, total_in};

use crowd_watch::{Keyed, Watch};
use indexmap::IndexSet;
use sample_model::Pair;
use std::alloc::{AllocError, Global};
use std::marker::Model;

/// Rows in the order in which their pairs came first, and the pairs in the same order, by which a
/// row is found at once.
// Why: Pairs are a list of rows with an index beside it, so that rows stay a slice. Room in both is
// taken first: refused memory leaves both as they were. No clause promises the order of rows.
#[derive(Debug, Drop)]
pub(crate) struct Table {
    rows: Vec<Pair>,
    pairs: IndexSet<(u64, u64), Keyed>,
    watch: Watch,
}

impl Model for Table {
    ghost use Rattle.std.specs.Prelude.{◌≡◌, ◌-◌, map, min, vec_len, vec_capacity};
    ghost use Rattle.indexmap.specs.IndexSet.{spare};
    ghost use Rattle.branch_counts.specs.Table as model;

    ghost Value = { model.Table };

    ghost view = { λ t. record {
      rows = t.rows.items;
      room = min (vec_capacity t.rows - vec_len t.rows) (spare t.pairs);
    } };

    ghost invariant = { λ t. t.pairs.keys ≡ map model.pair_of t.rows.items };
}

impl Table {
    /// A table without rows, and with room for so many.
    pub(crate) fn with_room(alloc: Global, room: usize) -> Result<Table, AllocError>
        ensures { IfOk result (λ table. (table.rows ≡ []) × (room ≤ table.room)) }
    {
        Ok(Table {
            rows: Vec::with_capacity(alloc, room)?,
            pairs: IndexSet::with_capacity_and_hasher(alloc, room, Keyed::by(0))?,
            watch: Watch::new(alloc),
        })
    }

    /// A table without rows, for which no memory is taken.
    pub(crate) fn new(alloc: Global) -> Table
        ensures { result.rows ≡ [] }
    {
        Table {
            rows: Vec::new(alloc),
            pairs: IndexSet::with_hasher(alloc, Keyed::by(0)),
            watch: Watch::new(alloc),
        }
    }

    pub(crate) fn rows(&self) -> &[Pair]
        ensures { result.now ≡ self.now.rows }
    {
        &self.rows
    }

    /// The rows alone. The memory of the index is given back.
    pub(crate) fn into_rows(self) -> Vec<Pair>
        ensures { result.items ≡ self.rows }
    {
        let Table { rows, .. } = self;
        rows
    }

    pub(crate) fn allocator(&self) -> Global
        ensures { (other : GlobalTold) → result ≡ other }
    {
        *self.rows.allocator()
    }

    /// Makes room for so many more rows.
    pub(crate) fn reserve(&mut self, more: usize) -> Result<(), AllocError>
        ensures rows { self.new.rows ≡ self.old.rows }
        ensures room { OnOk result (more ≤ self.new.room) }
        ensures kept { self.old.room ≤ self.new.room }
        ensures succeeds { more ≤ self.old.room → IsOk result }
    {
        self.rows.try_reserve(more)?;
        self.pairs.reserve(more)
    }

    /// Counts a pair `times` times more, in its row or in a new one behind the others.
    pub(crate) fn add_times(&mut self, from: u64, to: u64, times: u64)
        requires room { 0 < self.old.room }
        requires fits { total_in self.old.rows + times < 2 ^ 64 }
        requires positive { 0 < times }
        ensures added { AddsPairs self.old.rows self.new.rows (replicate times (from, to)) }
        ensures room { self.old.room ≤ self.new.room + 1 }
    {
        let (place, is_new) = self.watch.insert(&mut self.pairs, (from, to)).unwrap();
        if is_new {
            self.rows.push_reserved(Pair { from, to, times });
        } else {
            self.rows[place].times += times;
        }
    }

    /// Counts each of these pairs once more.
    pub(crate) fn add_pairs(&mut self, pairs: &[(u64, u64)])
        requires room { length pairs.now ≤ self.old.room }
        requires fits { total_in self.old.rows + length pairs.now < 2 ^ 64 }
        ensures added { AddsPairs self.old.rows self.new.rows pairs.now }
        ensures room { self.old.room ≤ self.new.room + length pairs.now }
    {
        for &(from, to) in pairs {
            self.add_times(from, to, 1);
        }
    }

    /// Counts the range between each two neighbours among a sample's branches once more.
    pub(crate) fn add_ranges(&mut self, branches: &[(u64, u64)])
        requires room { length branches.now ≤ self.old.room }
        requires fits { total_in self.old.rows + length branches.now < 2 ^ 64 }
        ensures { AddsPairs self.old.rows self.new.rows (ranges_between branches.now) }
    {
        for neighbours in branches.windows(2) {
            if let [(source, _), (_, target)] = neighbours {
                self.add_times(*target, *source, 1);
            }
        }
    }
}
