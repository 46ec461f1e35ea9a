ghost use Rattle.std.specs.Prelude.{◌≡◌, ◌≢◌, ◌<◌, ◌≤◌, ◌+◌, ◌↔◌, true, false, [], length, IfOk, OnOk, OnErr, IsErrOf, IsPermutation, IsSorted, replicate};
ghost use Rattle.std.specs.declared.alloc.Global.{Global as GlobalTold};
ghost use Rattle.sample_model.specs.Limits.{max_branches};
ghost use Rattle.branch_counts.specs.Pair.{pair_cmp};
ghost use Rattle.branch_counts.specs.Table.{AddsPairs, IsTable, total_in};
ghost use Rattle.branch_counts.specs.Tally.{AddsSample, AddsStack, IsCounted, counted, total_of};
ghost use Rattle.branch_counts.specs.declared.counts.CountsStop.TheVariants.{NoMemory as no_memory};

use crate::order::sort_pairs;
use crate::table::Table;
use refusal::NoMemory;
use sample_model::Pair;
use std::alloc::{AllocError, Global};
use std::marker::Model;

/// The most branches that are counted, all in all.
const MAX_BRANCHES: u64 = u32::MAX as u64;

/// Why branches were not counted.
#[derive(Clone, Copy, Debug, PartialEq, Eq)]
pub enum CountsStop {
    /// There would be more than 2^32 - 1 branches, all in all.
    TooMany,
    /// Memory was refused.
    NoMemory,
}

impl From<AllocError> for CountsStop {
    ghost from_gives = { λ _ stop. stop ≡ no_memory };

    fn from(_: AllocError) -> Self {
        CountsStop::NoMemory
    }
}

impl From<NoMemory> for CountsStop {
    ghost from_gives = { λ _ stop. stop ≡ no_memory };

    fn from(_: NoMemory) -> Self {
        CountsStop::NoMemory
    }
}

/// How often each distinct branch, and each distinct range between two branches of a sample, was
/// counted. Ranges are counted or left out, as the counts were made.
#[derive(Debug, Drop)]
pub struct Counts {
    branches: Table,
    ranges: Table,
    with_ranges: bool,
    total: u64,
}

// The counts of nothing have room for a first branch.
impl Model for Counts {
    ghost use Rattle.std.specs.Prelude.{◌≡◌, ◌<◌};
    ghost use Rattle.branch_counts.specs.Tally.{Tally, IsCounted};

    ghost Value = { Tally };

    ghost view = { λ c. record {
      branches = c.branches.rows;
      ranges = c.ranges.rows;
      with_ranges = c.with_ranges;
    } };

    ghost invariant = { λ c. IsCounted
        (record { branches = c.branches.rows; ranges = c.ranges.rows; with_ranges = c.with_ranges })
        c.total
        × (c.total ≡ 0 → 0 < c.branches.room) };
}

impl Counts {
    /// Counts of nothing yet, with room for a first branch.
    ///
    /// # Errors
    /// `NoMemory`.
    pub fn new(alloc: Global) -> Result<Counts, NoMemory>
        ensures { IfOk result (λ counts. (counts.branches ≡ []) × (counts.ranges ≡ [])
            × (counts.with_ranges ≡ true)) }
    {
        Ok(Counts {
            branches: Table::with_room(alloc, 1)?,
            ranges: Table::new(alloc),
            with_ranges: true,
            total: 0,
        })
    }

    /// Counts of no branch yet, which leave ranges out, with room for a first branch.
    ///
    /// # Errors
    /// `NoMemory`.
    // Why: `counts` prints no ranges.
    pub fn of_branches(alloc: Global) -> Result<Counts, NoMemory>
        ensures { IfOk result (λ counts. (counts.branches ≡ []) × (counts.ranges ≡ [])
            × (counts.with_ranges ≡ false)) }
    {
        Ok(Counts {
            branches: Table::with_room(alloc, 1)?,
            ranges: Table::new(alloc),
            with_ranges: false,
            total: 0,
        })
    }

    /// The distinct branches, each with how often it was counted.
    pub fn branches(&self) -> &[Pair]
        ensures rows { result.now ≡ self.now.branches }
        ensures table { IsTable result.now }
    {
        self.branches.rows()
    }

    /// The distinct branches in the order of pairs, each with how often it was counted. The memory
    /// of all else is given back.
    ///
    /// # Errors
    /// `NoMemory`.
    pub fn into_sorted_branches(self) -> Result<Vec<Pair>, NoMemory>
        ensures same { IfOk result (λ rows. IsPermutation self.branches rows.items) }
        ensures sorted { IfOk result (λ rows. IsSorted pair_cmp rows.items) }
    {
        let (branches, _ranges) = self.into_rows()?;
        Ok(branches)
    }

    /// The distinct branches in the order of pairs, and the distinct sampled ranges, each with how
    /// often it was counted. Rows stay where they are, and the memory of all else is given back.
    ///
    /// # Errors
    /// `NoMemory`.
    pub fn into_rows(self) -> Result<(Vec<Pair>, Vec<Pair>), NoMemory>
        ensures same { IfOk result (λ rows. IsPermutation self.branches rows.0.items) }
        ensures sorted { IfOk result (λ rows. IsSorted pair_cmp rows.0.items) }
        ensures ranges { IfOk result (λ rows. rows.1.items ≡ self.ranges) }
        ensures fewer { total_in self.ranges ≤ total_of self }
    {
        let Counts {
            branches,
            ranges,
            ..
        } = self;
        let mut branches = branches.into_rows();
        let ranges = ranges.into_rows();
        sort_pairs(&mut branches)?;
        Ok((branches, ranges))
    }

    /// The distinct sampled ranges, each with how often it was counted, and none where ranges are
    /// left out. `from` is the target of the older branch, where the range begins, and `to` the
    /// source of the newer one, where it ends; both are held.
    pub fn ranges(&self) -> &[Pair]
        ensures rows { result.now ≡ self.now.ranges }
        ensures table { IsTable result.now }
        ensures fewer { total_in result.now ≤ total_of self.now }
    {
        self.ranges.rows()
    }

    /// How many branches were counted, all in all: at most 2^32 - 1.
    pub fn total(&self) -> u64
        ensures value { result ≡ total_of self.now }
        ensures within { result ≤ max_branches }
    {
        self.total
    }

    /// The allocator of the rows, which is the only one there is.
    pub fn allocator(&self) -> Global
        ensures { (other : GlobalTold) → result ≡ other }
    {
        self.branches.allocator()
    }

    /// What is kept of all counts, for a proof that rests on it. Nothing is done.
    pub fn keeps(&self)
        ensures { IsCounted self.now (total_of self.now) }
    {
        let _total = self.total;
    }

    /// The branches of a sample whose ranges are counted, or its ranges that are: all, or none
    /// where ranges are left out.
    fn ranged<'a>(&self, all: &'a [(u64, u64)]) -> &'a [(u64, u64)]
        ensures { result.now ≡ counted self.now.with_ranges all.now }
    {
        if self.with_ranges { all } else { &[] }
    }

    /// Counts one branch from the address `from` to the address `to` `times` times more, and no
    /// range. `times` is above 0. A first branch takes no memory.
    ///
    /// # Errors
    /// `TooMany` where the total would pass 2^32 - 1, and else `NoMemory`. The counts are then as
    /// they were.
    pub fn add_branch(&mut self, from: u64, to: u64, times: u64) -> Result<(), CountsStop>
        requires { 0 < times }
        ensures added { OnOk result
            (AddsPairs self.old.branches self.new.branches (replicate times (from, to))) }
        ensures ranges { (self.new.ranges ≡ self.old.ranges)
            × (self.new.with_ranges ≡ self.old.with_ranges) }
        ensures too_many { IsErrOf result CountsStop.TooMany
            ↔ (max_branches < total_of self.old + times) }
        ensures first { total_of self.old ≡ 0 → result ≢ Err CountsStop.NoMemory }
        ensures err { OnErr result (self.new ≡ self.old) }
    {
        if times > MAX_BRANCHES - self.total {
            return Err(CountsStop::TooMany);
        }
        self.branches.reserve(1)?;
        self.branches.add_times(from, to, times);
        self.total += times;
        Ok(())
    }

    /// Counts the branches of one sample, newest first, and the range between each two neighbours
    /// among them, from the older one's target to the newer one's source.
    ///
    /// # Errors
    /// `TooMany` where the total would pass 2^32 - 1, and else `NoMemory`. The counts are then as
    /// they were.
    ///
    /// Source: perf-script(1), "brstack": each entry is a source and a target, and the newest
    /// stands first.
    pub fn add_stack(&mut self, entries: &[(u64, u64)]) -> Result<(), CountsStop>
        ensures added { OnOk result (AddsStack self.old self.new entries.now) }
        ensures too_many { IsErrOf result CountsStop.TooMany
            ↔ (max_branches < total_of self.old + length entries.now) }
        ensures err { OnErr result (self.new ≡ self.old) }
    {
        let count = entries.len();
        if count as u64 > MAX_BRANCHES - self.total {
            return Err(CountsStop::TooMany);
        }
        let ranged = self.ranged(entries);
        self.branches.reserve(count)?;
        self.ranges.reserve(ranged.len())?;
        self.branches.add_pairs(entries);
        self.ranges.add_ranges(ranged);
        self.total += count as u64;
        Ok(())
    }

    /// Counts the branches of one sample and these ranges, of which there are not more.
    ///
    /// # Errors
    /// `TooMany` where the total would pass 2^32 - 1, and else `NoMemory`. The counts are then as
    /// they were.
    pub fn add_sample(
        &mut self,
        branches: &[(u64, u64)],
        ranges: &[(u64, u64)],
    ) -> Result<(), CountsStop>
        requires { length ranges.now ≤ length branches.now }
        ensures added { OnOk result (AddsSample self.old self.new branches.now ranges.now) }
        ensures too_many { IsErrOf result CountsStop.TooMany
            ↔ (max_branches < total_of self.old + length branches.now) }
        ensures err { OnErr result (self.new ≡ self.old) }
    {
        let count = branches.len();
        if count as u64 > MAX_BRANCHES - self.total {
            return Err(CountsStop::TooMany);
        }
        let ranges = self.ranged(ranges);
        self.branches.reserve(count)?;
        self.ranges.reserve(ranges.len())?;
        self.branches.add_pairs(branches);
        self.ranges.add_pairs(ranges);
        self.total += count as u64;
        Ok(())
    }
}
