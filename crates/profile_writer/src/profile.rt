// A profile in memory, with the rows that its report tells of.
ghost use Rattle.std.specs.Io.{StartsWith};
ghost use Rattle.std.specs.Prelude.{◌≡◌, ◌≤◌, ◌<◌, ◌^◌, ◌++◌, All, IfOk, OnErr, OnOk, length};
ghost use Rattle.branch_counts.specs.Table.{total_in};
ghost use Rattle.profile_lists.specs.Segments.{AllFit};
ghost use Rattle.key_types.specs.Segments.{AreSegments};
ghost use Rattle.profile_model.specs.Hits.{times_of};
ghost use Rattle.profile_report.specs.Told.{Tells};
ghost use Rattle.profile_tree.specs.Known.{HasNames};
ghost use Rattle.profile_tree.specs.Standing.{first_ways};
ghost use Rattle.profile_tree.specs.Told.{IsOf};
ghost use Rattle.report_model.specs.Report.{Classes, Sampled, report_text};
ghost use Rattle.sample_model.specs.Limits.{max_branches};
ghost use Rattle.output_model.specs.Program.{Program};
ghost use Rattle.profile_writer.specs.Profile.{IsProfileOf, IsProfileWith, IsProfileWithCold, lines_text, ran as ranges_run, total_of, total_of_line};
ghost use Rattle.profile_writer.specs.Told.{TellsProgram, TellsSampled};

use crate::counted::ran_of;
use crate::samples::Samples;
use crate::tree::tree_of;
use branch_class::{Class, RangeClass};
use key_types::{Keys, Names, Places, Seg};
use profile_report::{BranchUnits, Classed, class_branches, class_ranges};
use profile_tree::{Line, Tree};
use range_counts::RanRange;
use refusal::NoMemory;
use std::alloc::Global;
use std::marker::Model;

/// The profile of a program and its samples, made once: its lines, the counts of its keys, and the
/// classes of the sampled branches and ranges.
#[derive(Debug, Drop)]
pub struct Profile {
    tree: Tree,
    branches: Vec<Classed<Class>>,
    ranges: Vec<Classed<RangeClass>>,
    units: BranchUnits,
}

impl Model for Profile {
    ghost use Rattle.profile_writer.specs.Profile.{AreSmall, Parts};

    ghost Value = { Parts };

    ghost view = { λ p. record {
      lines = p.tree.lines;
      counts = p.tree.counts;
      branches = p.branches.items;
      ranges = p.ranges.items;
      units = p.units;
    } };

    ghost invariant = { λ p. AreSmall (record {
      lines = p.tree.lines;
      counts = p.tree.counts;
      branches = p.branches.items;
      ranges = p.ranges.items;
      units = p.units;
    }) };
}

impl Profile {
    /// The profile of a program and its samples. `places` is the map of the program; the numbers in
    /// it are those of `keys` and `names`, and `segments` are the parts of the program whose
    /// addresses have a key.
    ///
    /// # Errors
    /// `NoMemory`.
    pub fn make<P: Places>(
        alloc: Global,
        samples: &Samples<'_>,
        places: &P,
        segments: &[Seg],
        keys: &Keys,
        names: &Names,
    ) -> Result<Profile, NoMemory>
        requires segments { AreSegments segments.now }
        requires fit { AllFit (length keys.now) segments.now }
        requires key_names { All (HasNames (length names.now)) keys.now }
        requires few_branches { total_in samples.now.branches.now ≤ max_branches }
        requires few_ranges { total_in samples.now.ranges.now ≤ max_branches }
        requires shown { (program : Program) × TellsProgram program names.now keys.now segments.now
            (P.place_of places.now) (P.function_of places.now) (P.entry_name_of places.now) }
        ensures told { IfOk result (λ profile. (program : Program) (sampled : Sampled)
            → TellsProgram program names.now keys.now segments.now
            (P.place_of places.now) (P.function_of places.now) (P.entry_name_of places.now)
            → TellsSampled sampled samples.now.branches.now samples.now.ranges.now samples.now.units
            → IsProfileOf program sampled names.now segments.now profile) }
        ensures names { IfOk result (λ profile. All (IsOf names.now) profile.lines) }
    {
        Profile::with_known(alloc, samples, places, segments, 0, keys, names)
    }

    /// The same, where each key has a line whose function stands there: with count 0 where it has
    /// neither a count nor a target.
    ///
    /// # Errors
    /// `NoMemory`.
    pub fn make_with_cold<P: Places>(
        alloc: Global,
        samples: &Samples<'_>,
        places: &P,
        segments: &[Seg],
        keys: &Keys,
        names: &Names,
    ) -> Result<Profile, NoMemory>
        requires segments { AreSegments segments.now }
        requires fit { AllFit (length keys.now) segments.now }
        requires key_names { All (HasNames (length names.now)) keys.now }
        requires few_branches { total_in samples.now.branches.now ≤ max_branches }
        requires few_ranges { total_in samples.now.ranges.now ≤ max_branches }
        requires shown { (program : Program) × TellsProgram program names.now keys.now segments.now
            (P.place_of places.now) (P.function_of places.now) (P.entry_name_of places.now) }
        ensures told { IfOk result (λ profile. (program : Program) (sampled : Sampled)
            → TellsProgram program names.now keys.now segments.now
            (P.place_of places.now) (P.function_of places.now) (P.entry_name_of places.now)
            → TellsSampled sampled samples.now.branches.now samples.now.ranges.now samples.now.units
            → IsProfileWithCold program sampled names.now keys.now profile) }
        ensures names { IfOk result (λ profile. All (IsOf names.now) profile.lines) }
    {
        Profile::with_known(alloc, samples, places, segments, keys.len(), keys, names)
    }

    /// The profile in which each of the first `known` keys has a line whose function stands there.
    fn with_known<P: Places>(
        alloc: Global,
        samples: &Samples<'_>,
        places: &P,
        segments: &[Seg],
        known: u32,
        keys: &Keys,
        names: &Names,
    ) -> Result<Profile, NoMemory>
        requires segments { AreSegments segments.now }
        requires fit { AllFit (length keys.now) segments.now }
        requires known { known ≤ length keys.now }
        requires key_names { All (HasNames (length names.now)) keys.now }
        requires few_branches { total_in samples.now.branches.now ≤ max_branches }
        requires few_ranges { total_in samples.now.ranges.now ≤ max_branches }
        requires shown { (program : Program) × TellsProgram program names.now keys.now segments.now
            (P.place_of places.now) (P.function_of places.now) (P.entry_name_of places.now) }
        ensures told { IfOk result (λ profile. (program : Program) (sampled : Sampled)
            → TellsProgram program names.now keys.now segments.now
            (P.place_of places.now) (P.function_of places.now) (P.entry_name_of places.now)
            → TellsSampled sampled samples.now.branches.now samples.now.ranges.now samples.now.units
            → IsProfileWith program sampled names.now segments.now
            (first_ways names.now keys.now known) profile) }
        ensures names { IfOk result (λ profile. All (IsOf names.now) profile.lines) }
    {
        keys.each_once();
        names.each_once();
        let branches = class_branches(alloc, samples.branches, places)?;
        let ranges = class_ranges(alloc, samples.ranges, places)?;
        let tree = tree_of(
            alloc, &branches, &ranges, places, segments, known, keys, names,
        )?;
        Ok(Profile {
            tree,
            branches,
            ranges,
            units: samples.units,
        })
    }

    /// Appends the lines, whose names have their numbers from `names`.
    ///
    /// # Errors
    /// `NoMemory`, and `out` may have grown: what it held stands at its front.
    pub fn push_lines(&self, names: &Names, out: &mut Vec<u8>) -> Result<(), NoMemory>
        requires { All (IsOf names.now) self.now.lines }
        ensures appended { OnOk result (out.new.items
            ≡ out.old.items ++ lines_text names.now self.now) }
        ensures grows { OnErr result (StartsWith out.new.items out.old.items) }
    {
        profile_text::write(&self.tree, names, out)
    }

    /// Appends the report on the samples.
    ///
    /// # Errors
    /// `NoMemory`, and `out` may have grown: what it held stands at its front.
    pub fn push_report(&self, out: &mut Vec<u8>) -> Result<(), NoMemory>
        ensures appended { OnOk result ((classes : Classes) (sampled : Sampled)
            → Tells classes sampled self.now.branches self.now.ranges self.now.units
            → out.new.items ≡ out.old.items ++ report_text classes sampled) }
        ensures grows { StartsWith out.new.items out.old.items }
    {
        profile_report::write(out, &self.branches, &self.ranges, self.units)
    }

    /// The totals of all functions, together.
    pub fn total(&self) -> u128
        ensures { result ≡ total_of self.now }
    {
        let mut total: u128 = 0;
        for line in self.tree.lines.as_slice() {
            total += u128::from(total_of(line));
        }
        total
    }

    /// The count of each key, at its number.
    pub fn counts(&self) -> &[u64]
        ensures same { result.now ≡ self.now.counts }
        ensures small { All (λ count. count < 2 ^ 44) result.now }
    {
        self.tree.counts.as_slice()
    }

    /// The ranges that ran.
    ///
    /// # Errors
    /// `NoMemory`.
    pub fn ran(&self, alloc: Global) -> Result<Vec<RanRange>, NoMemory>
        ensures same { IfOk result (λ ran. ran.items ≡ ranges_run self.now) }
        ensures few { IfOk result (λ ran. times_of ran.items ≤ max_branches) }
    {
        ran_of(alloc, &self.ranges)
    }
}

/// The total in the line of a function; no other line counts.
fn total_of(line: &Line) -> u64
    ensures { result ≡ total_of_line line.now }
{
    match line {
        Line::Function { total, .. } => *total,
        Line::Body { .. } | Line::Call { .. } => 0,
    }
}
