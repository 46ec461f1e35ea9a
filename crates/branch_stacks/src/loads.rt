// What a text has told of the loads of a program, and the addresses that they move.
ghost use Rattle.std.specs.Prelude.{◌≡◌, ◌++◌, ◌∷◌, [], Some, true, map, IfOk, OnErr, OnOk, IsErrOf, ◌+◌, ◌<◌, ◌≤◌, length, vec_len, vec_capacity};
ghost use Rattle.sample_model.specs.Limits.{max_branches};
ghost use Rattle.sample_model.specs.Line.{branches_of_line};
ghost use Rattle.sample_model.specs.Loads.{loads_of};
ghost use Rattle.sample_model.specs.Moves as moves;
ghost use Rattle.branch_stacks.specs.Loads.{map_in, range_behind, AddsLine};
ghost use Rattle.branch_counts.specs.Tally.{total_of};

use branch_counts::{Counts, CountsStop};
use branch_lines::load_line;
use load_index::{LoadIndex, SegmentIndex};
use load_model::LoadSegment;
use refusal::NoMemory;
use sample_model::Load;
use std::alloc::Global;

/// The loads that a text has told of so far, and what is needed to move the addresses of a program.
#[derive(Debug, Drop)]
pub(crate) struct Loads {
    /// The name of the program's file in load lines.
    pub name: Vec<u8>,
    /// Its segments of code.
    pub segments: SegmentIndex,
    /// The loads, as the lines tell of them.
    pub met: LoadIndex,
    /// The moved branches of one sample, newest first.
    branches: Vec<(u64, u64)>,
    /// The ranges between them.
    ranges: Vec<(u64, u64)>,
}

impl Loads {
    /// No loads yet, of a program whose file has this name and these segments of code.
    pub fn new(alloc: Global, name: &[u8], segments: &[LoadSegment]) -> Result<Loads, NoMemory>
        ensures { IfOk result (λ loads. (loads.name.items ≡ name.now)
            × (loads.segments ≡ segments.now) × (loads.met ≡ [])) }
    {
        Ok(Loads {
            name: Vec::from_slice(alloc, name)?,
            segments: SegmentIndex::new(alloc, segments)?,
            met: LoadIndex::new(alloc),
            branches: Vec::new(alloc),
            ranges: Vec::new(alloc),
        })
    }

    /// Counts the branches of a line and the ranges between them, moved by the loads that the lines
    /// before it tell of, or takes the load that it tells of.
    ///
    /// # Errors
    /// `TooMany` where the total would pass 2^32 - 1, and `NoMemory`. The counts are then as they
    /// were.
    pub fn count(
        &mut self,
        line: &[u8],
        branches: &[(u64, u64)],
        counts: &mut Counts,
    ) -> Result<(), CountsStop>
        requires { branches.now ≡ branches_of_line line.now }
        ensures added { OnOk result
            (AddsLine (Some (map_in self.old)) self.old.met counts.old counts.new line.now) }
        ensures met { OnOk result (self.new.met
            ≡ self.old.met ++ loads_of self.old.name.items (line.now ∷ [])) }
        ensures same { OnOk result (map_in self.new ≡ map_in self.old) }
        ensures fits { OnOk result (total_of counts.old + length branches.now ≤ max_branches) }
        ensures too_many { IsErrOf result CountsStop.TooMany
            → max_branches < total_of counts.old + length branches.now }
        ensures err { OnErr result (counts.new ≡ counts.old) }
    {
        if branches.is_empty() {
            self.meet(line)?;
        }
        self.move_branches(branches)?;
        counts.add_sample(&self.branches, &self.ranges)
    }

    /// Takes the load that a line tells of, if it is a load line.
    pub fn meet(&mut self, line: &[u8]) -> Result<(), NoMemory>
        ensures met { OnOk result (self.new.met
            ≡ self.old.met ++ loads_of self.old.name.items (line.now ∷ [])) }
        ensures same { map_in self.new ≡ map_in self.old }
    {
        if let Some(told) = load_line(line) {
            self.met.push(Load {
                start: told.start,
                len: told.len,
                offset: told.offset,
                is_wanted: told.name == self.name.as_slice(),
            })?;
        }
        Ok(())
    }

    /// Moves the branches of a sample, newest first, and makes the ranges between them.
    fn move_branches(&mut self, branches: &[(u64, u64)]) -> Result<(), NoMemory>
        ensures branches { OnOk result (let moved = map
            (moves.moved_branch self.old.segments self.old.met) branches.now in
            (self.new.branches.items ≡ map moves.counted_branch moved)
            × (self.new.ranges.items ≡ moves.moved_ranges moved)) }
        ensures same { (map_in self.new ≡ map_in self.old)
            × (self.new.met ≡ self.old.met) }
    {
        self.met.prepare(branches.len().saturating_mul(2))?;
        self.branches.clear();
        self.ranges.clear();
        self.branches.try_reserve(branches.len())?;
        self.ranges.try_reserve(branches.len())?;
        let mut newer = None;
        for &(from, to) in branches {
            let source = self.move_of(from);
            let target = self.move_of(to);
            push_range(&mut self.ranges, target, newer);
            self.branches.push_reserved((or_0(source), or_0(target)));
            newer = Some(source);
        }
        Ok(())
    }

    /// The address of the program that ran at an address, unless that is foreign.
    #[tactic(auto, unfolding(sample_model::specs::Moves::move_of))]
    fn move_of(&self, address: u64) -> Option<u64>
        ensures { result ≡ moves.move_of self.now.segments self.now.met address }
    {
        let load = self.met.last(address)?;
        if !load.is_wanted {
            return None;
        }
        let offset = u128::from(address - load.start) + u128::from(load.offset);
        self.segments.address_of_offset(offset)
    }
}

/// A foreign address counts as 0.
fn or_0(address: Option<u64>) -> u64
    ensures { result ≡ moves.or_0 address }
{
    address.unwrap_or(0)
}

/// Adds the range from a target to the source of the newer branch, where there is one.
fn push_range(ranges: &mut Vec<(u64, u64)>, target: Option<u64>, newer: Option<Option<u64>>)
    requires { vec_len ranges.old < vec_capacity ranges.old }
    ensures pushed { ranges.new.items ≡ ranges.old.items ++ range_behind newer target }
    ensures capacity { vec_capacity ranges.new ≡ vec_capacity ranges.old }
{
    if let Some(source) = newer {
        ranges.push_reserved(range(target, source));
    }
}

/// The range from one moved address to another, which is from 0 to 0 where one of them is foreign.
fn range(lo: Option<u64>, hi: Option<u64>) -> (u64, u64)
    ensures { result ≡ moves.range_from lo hi }
{
    match (lo, hi) {
        (Some(lo), Some(hi)) => (lo, hi),
        _ => (0, 0),
    }
}
