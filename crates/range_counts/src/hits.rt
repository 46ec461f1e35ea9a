ghost use Rattle.std.specs.Prelude.{◌≡◌, ◌<◌};
ghost use Rattle.profile_model.specs.Hits.{IsLargestIn};
ghost use Rattle.profile_model.specs.Steps.{hits_by};

use crate::steps::{first_above, hits_behind, largest_from};
use crate::walk::Walk;
use profile_model::Step;
use std::marker::Model;

/// How often each address ran.
#[derive(Debug, Drop)]
pub struct Hits {
    pub(crate) steps: Vec<Step>,
}

// Clauses see steps that tell the hits, each above the one before it.
impl Model for Hits {
    ghost use Rattle.std.specs.Prelude.{List};
    ghost use Rattle.profile_model.specs.declared.step.Step.{Step};
    ghost use Rattle.range_counts.specs.Steps.{Ascend};

    ghost Value = { List Step };

    ghost view = { λ h. h.steps.items };

    ghost invariant = { λ h. Ascend h.steps.items };
}

impl Hits {
    /// The hits of an address: the sum of the times of the ranges that hold it.
    pub fn at(&self, address: u64) -> u64
        ensures { result ≡ hits_by self.now address }
    {
        hits_behind(&self.steps, first_above(&self.steps, address))
    }

    /// The largest hits of the addresses from `lo` on that are below `hi`.
    ///
    /// It takes a search, and then as long as there are steps between the two. A `walk` needs no
    /// search for parts of the program one behind the other.
    pub fn max_in(&self, lo: u64, hi: u64) -> u64
        requires { lo < hi }
        ensures { IsLargestIn lo hi (hits_by self.now) result }
    {
        let (largest, _) = largest_from(&self.steps, first_above(&self.steps, lo), hi);
        largest
    }

    /// A walk up all addresses, from 0 on.
    pub fn walk(&self) -> Walk<'_>
        ensures steps { result.steps ≡ self.now }
        ensures from { result.from ≡ 0 }
    {
        Walk::new(&self.steps)
    }
}
