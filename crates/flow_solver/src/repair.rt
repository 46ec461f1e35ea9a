// The whole solver.
ghost use Rattle.std.specs.Prelude.{IfOk};
ghost use Rattle.flow_solver.specs.Solved.{Solves};

use flow_network::{Net, Solved};
use flow_phases::solve_counted;
use refusal::NoMemory;
use std::alloc::Global;

/// Counts of least cost that conserve within bounds, with prices that fit them; or a cut, exactly
/// where no counts conserve within bounds.
///
/// There is no budget, and no other refusal than want of memory. Which of several least counts is
/// found is not said.
///
/// Source: "Network Flows", 3.3 and 9.7.
pub fn solve(alloc: Global, net: &Net) -> Result<Solved, NoMemory>
    ensures { IfOk result (Solves net.now) }
{
    let mut augmentations = 0;
    solve_counted(alloc, net, &mut augmentations)
}
