// How networks are solved, and how many augmentations that took.
ghost use Rattle.std.specs.Prelude.{◌≡◌, ◌≤◌, ◌+◌, ◌*◌, ◌^◌, IfOk, OnOk};
ghost use Rattle.flow_solver.specs.Solved.{Solves};
ghost use Rattle.scaling_model.specs.Bound.{most_digits, phase_bound};
ghost use Rattle.repair_maker.specs.Solver.{TookFew};

use flow_network::{Net, Solved};
use flow_scaling::{Steps, Tally, fits, solve_scaled};
use flow_solver::solve;
use refusal::NoMemory;
use std::alloc::Global;
use std::marker::Model;

/// Solves one network after the other.
#[derive(Debug, Drop)]
pub(crate) struct Solver {
    /// Whether the augmentations have to be within a bound, and are counted.
    scaled: bool,
    steps: Steps<Tally>,
}

// Clauses see how many augmentations were counted.
impl Model for Solver {
    ghost use Rattle.std.specs.Prelude.{ℕ};

    ghost Value = { ℕ };

    ghost view = { λ s. s.steps.ledger };
}

impl Solver {
    /// Nothing was solved. With `scaled` each network whose counts to start from are small enough
    /// is solved within a bound on augmentations, and these are counted.
    pub(crate) fn new(scaled: bool) -> Solver
        ensures { result ≡ 0 }
    {
        Solver {
            scaled,
            steps: Steps {
                ledger: Tally::new(),
            },
        }
    }

    /// Counts of least cost for a network, with prices that fit them, or a cut.
    pub(crate) fn solve(&mut self, alloc: Global, net: &Net) -> Result<Solved, NoMemory>
        requires room { self.old ≤ 2 ^ 63 }
        ensures solved { IfOk result (Solves net.now) }
        ensures counted { TookFew net.now self.old self.new }
        ensures few { self.new ≤ self.old + (most_digits + 1) * phase_bound net.now }
    {
        if self.scaled && fits(net) {
            solve_scaled(alloc, net, &mut self.steps)
        } else {
            solve(alloc, net)
        }
    }

    /// How many augmentations were counted.
    pub(crate) fn augmentations(&self) -> u64
        ensures { result ≡ self.now }
    {
        self.steps.ledger.ticks()
    }
}
