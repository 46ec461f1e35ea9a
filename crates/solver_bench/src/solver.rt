// Which solver is timed.
ghost use Rattle.std.specs.Prelude.{IfOk};
ghost use Rattle.flow_solver.specs.Solved.{Solves};

use flow_network::{Net, Solved};
use flow_scaling::{Steps, Tally, fits, solve_scaled};
use flow_solver::solve;
use refusal::NoMemory;
use std::alloc::Global;

/// The most augmentations with which one more network can be solved by steps that are counted.
const MOST_TICKS: u64 = 1 << 63;

/// Solves one network after the other.
#[derive(Debug, Drop)]
pub(crate) struct Solver {
    /// Whether the augmentations have to be within a bound, and are counted.
    scaled: bool,
    steps: Steps<Tally>,
}

impl Solver {
    /// Nothing was solved.
    pub(crate) fn new(scaled: bool) -> Solver {
        Solver {
            scaled,
            steps: Steps {
                ledger: Tally::new(),
            },
        }
    }

    /// Counts of least cost for a network, with prices that fit them, or a cut.
    pub(crate) fn solve(&mut self, alloc: Global, net: &Net) -> Result<Solved, NoMemory>
        ensures { IfOk result (Solves net.now) }
    {
        let few = self.steps.ledger.ticks() <= MOST_TICKS;
        if self.scaled && few && fits(net) {
            solve_scaled(alloc, net, &mut self.steps)
        } else {
            solve(alloc, net)
        }
    }

    /// How many augmentations were counted.
    pub(crate) fn augmentations(&self) -> u64 {
        self.steps.ledger.ticks()
    }
}
