// What is found and what is written is accepted.
ghost use Rattle.std.specs.Prelude.{IfOk, IsTrue};
ghost use Rattle.repair_text.specs.Repair.{solution_of};
ghost use Rattle.clause_uses.specs.Written.{IsWritten};

use dual_check::{accepts, accepts_cut};
use flow_network::{Net, Solved};
use flow_solver::solve;
use refusal::NoMemory;
use std::alloc::Global;

/// Whatever the solver finds for a network is accepted: its counts with its prices, or its cut.
pub fn accepts_each_solution(alloc: Global, net: &Net) -> Result<bool, NoMemory>
    ensures { IfOk result (λ accepted. IsTrue accepted) }
{
    match solve(alloc, net)? {
        Solved::Flow(flow, prices) => Ok(accepts(net, &flow, &prices)),
        Solved::Cut(nodes) => Ok(accepts_cut(net, &nodes)),
    }
}

/// What `build` may write of a function is accepted on the network of the function and of the
/// weights that are written with it.
pub fn accepts_what_build_writes(net: &Net, solved: &Solved) -> bool
    requires { IsWritten net.now (solution_of solved.now) }
    ensures { IsTrue result }
{
    match solved {
        Solved::Flow(flow, prices) => accepts(net, flow, prices),
        Solved::Cut(nodes) => accepts_cut(net, nodes),
    }
}
