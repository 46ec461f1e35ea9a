ghost use Rattle.std.specs.Prelude.{◌≡◌, ◌<◌, ◌≤◌, ◌^◌, length, IfOk};
ghost use Rattle.profile_model.specs.Hits.{times_of};
ghost use Rattle.profile_model.specs.Steps.{hits_by};
ghost use Rattle.weight_model.specs.Edges.{taken as times_taken, went_over};
ghost use Rattle.block_weights.specs.Sampled.{Tell, branches_taken};

use crate::passing::behind_firsts;
use crate::taken::{rank, sums_of, taken};
use cfg_text::Block;
use range_counts::{Hits, RanRange, sweep};
use refusal::NoMemory;
use sample_model::Pair;
use std::alloc::Global;
use std::marker::Model;

/// Sampled branches by their ranks, and how often ranges ran past each address.
// Why: All branches are ordered once, by target and then by source. A search finds those of an
// edge, however many edges a block has.
#[derive(Debug, Drop)]
pub struct EdgeSamples {
    branches: Vec<Pair>,
    /// How often the branches in front of each were taken, and all of them.
    sums: Vec<u64>,
    passing: Hits,
}

impl Model for EdgeSamples {
    ghost use Rattle.block_weights.specs.Sampled.{AreSums, IsInOrder, Sampled};

    ghost Value = { Sampled };

    ghost view = { λ s. record { branches = s.branches.items; passing = s.passing } };

    ghost invariant = { λ s. IsInOrder
        (record { branches = s.branches.items; passing = s.passing })
        × AreSums s.branches.items s.sums.items };
}

impl EdgeSamples {
    /// Puts branches and ranges that ran in order. The times of either add up to less than 2^32.
    ///
    /// It takes a sort of each. Branches are sorted where they stand.
    ///
    /// # Errors
    /// `NoMemory`.
    pub fn new(
        alloc: Global,
        mut branches: Vec<Pair>,
        ran: &[RanRange],
    ) -> Result<EdgeSamples, NoMemory>
        requires branches { branches_taken branches.items < 2 ^ 32 }
        requires ran { times_of ran.now < 2 ^ 32 }
        ensures { IfOk result (Tell branches.items ran.now) }
    {
        let passing = sweep(alloc, &behind_firsts(alloc, ran)?)?;
        branches.sort_unstable_by_key(|branch| rank(branch.to, branch.from));
        let sums = sums_of(alloc, &branches)?;
        Ok(EdgeSamples {
            branches,
            sums,
            passing,
        })
    }

    /// How often the program went over from one block to another, and the place of the branches
    /// that lead so. It is looked for around the place `near` first.
    pub(crate) fn went_over(&self, from: &Block, to: &Block, near: usize) -> (u64, usize)
        requires { near ≤ length self.now.branches }
        ensures told { result.0 ≡ went_over (times_taken self.now.branches)
            (hits_by self.now.passing) from.now to.now }
        ensures small { result.0 < 2 ^ 33 }
        ensures near { result.1 ≤ length self.now.branches }
    {
        let (taken, near) = taken(&self.branches, &self.sums, near, from, to.lo);
        if from.hi == to.lo {
            (taken + self.passing.at(to.lo), near)
        } else {
            (taken, near)
        }
    }
}
