// The solver that tells a ledger.
ghost use Rattle.std.specs.Prelude.{◌↔◌, ◌^◌, ◌≤◌, IfOk, IsTrue};
ghost use Rattle.flow_phases.specs.Solved.{Solves};
ghost use Rattle.scaling_model.specs.Bound.{AreFew, StartWithin, most_digits};

use crate::ledger::{Ledger, Steps, tell};
use flow_network::{Net, Solved};
use flow_phases::{solve_counted, starts_within};
use refusal::NoMemory;
use std::alloc::Global;

/// The most binary digits of a count to start from with which augmentations are told.
const MOST_DIGITS: u32 = 36;

/// Whether each count to start from is below 2^36: a weight, or 0 on the arcs of calls and returns,
/// moved into the arc's bounds.
pub fn fits(net: &Net) -> bool
    ensures { IsTrue result ↔ StartWithin most_digits net.now }
{
    starts_within(net, MOST_DIGITS)
}

/// Counts of least cost that conserve within bounds, with prices that fit them; or a cut, exactly
/// where no counts conserve within bounds: all that `flow_solver::solve` says of its answer.
///
/// The ledger is told of each augmentation that led to it, `32 * (blocks + edges + 1)` at most for
/// each binary digit of the greatest count to start from, and so many once more; also where memory
/// is wanting. A count to start from is a weight, or 0 on the arcs of calls and returns, moved into
/// the arc's bounds. They have to be below 2^36, which `fits` tells, and the ledger has to begin at
/// 2^63 at most. The work of one augmentation is not bounded by it.
///
/// # Errors
/// `NoMemory`.
///
/// Source: "Network Flows", 3.3, 9.7 and 10.2.
pub fn solve_scaled<L: Ledger>(
    alloc: Global,
    net: &Net,
    steps: &mut Steps<L>,
) -> Result<Solved, NoMemory>
    requires fits { StartWithin most_digits net.now }
    requires room { L.ticks steps.old.ledger ≤ 2 ^ 63 }
    ensures solved { IfOk result (Solves net.now) }
    ensures ticks { AreFew net.now (L.ticks steps.old.ledger) (L.ticks steps.new.ledger) }
{
    let mut augmentations = 0;
    let solved = solve_counted(alloc, net, &mut augmentations);
    tell(&mut steps.ledger, augmentations);
    solved
}
