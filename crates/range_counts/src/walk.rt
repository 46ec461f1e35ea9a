ghost use Rattle.std.specs.Prelude.{◌≡◌, ◌<◌, ◌≤◌};
ghost use Rattle.profile_model.specs.Hits.{IsLargestIn};
ghost use Rattle.profile_model.specs.Steps.{hits_by};
ghost use Rattle.range_counts.specs.Steps.{Ascend};

use crate::steps::{first_above_from, largest_from};
use profile_model::Step;
use std::marker::Model;

/// A way up the addresses, on which parts of the program are asked one behind the other.
///
/// All answers together take as long as there are parts and steps.
// Why: A walk may be asked from the last step passed, so that ascending segments meet the
// condition.
#[derive(Debug, Drop)]
pub struct Walk<'h> {
    steps: &'h [Step],
    next: usize,
}

// Clauses see steps that tell the hits, and the address from which on they may be asked: that of
// the last step that was passed.
impl<'h> Model for Walk<'h> {
    ghost use Rattle.std.specs.Prelude.{◌≤◌, length, take};
    ghost use Rattle.profile_model.specs.Steps.{ground, last_of};
    ghost use Rattle.range_counts.specs.Steps.{Ascend};
    ghost use Rattle.range_counts.specs.Walked.{Walked};

    ghost Value = { Walked };

    ghost view = { λ w. record {
      steps = w.steps.now;
      from = (last_of ground (take w.next w.steps.now)).at;
    } };

    ghost invariant = { λ w. Ascend w.steps.now × (w.next ≤ length w.steps.now) };
}

impl<'h> Walk<'h> {
    /// A walk from address 0 on.
    pub(crate) fn new(steps: &'h [Step]) -> Walk<'h>
        requires { Ascend steps.now }
        ensures steps { result.steps ≡ steps.now }
        ensures from { result.from ≡ 0 }
    {
        Walk { steps, next: 0 }
    }

    /// The largest hits of the addresses from `lo` on that are below `hi`, where `lo` is not below
    /// the end of what was asked before.
    pub fn max_in(&mut self, lo: u64, hi: u64) -> u64
        requires ascending { self.old.from ≤ lo }
        requires some { lo < hi }
        ensures largest { IsLargestIn lo hi (hits_by self.old.steps) result }
        ensures steps { self.new.steps ≡ self.old.steps }
        ensures from { self.new.from ≤ hi }
    {
        let next = first_above_from(self.steps, self.next, lo);
        let (largest, end) = largest_from(self.steps, next, hi);
        self.next = end;
        largest
    }
}
