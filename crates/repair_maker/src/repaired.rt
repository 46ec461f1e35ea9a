// The repair of a function, before anything is told of it.
ghost use Rattle.std.specs.Prelude.{◌<◌, ◌≤◌, ◌+◌, ◌*◌, ◌^◌, IfOk};
ghost use Rattle.std.specs.List.{All};
ghost use Rattle.block_model.specs.Limits.{bound_bits};
ghost use Rattle.flow_model.specs.Sound.{IsSound};
ghost use Rattle.block_weights.specs.Counts.{count_in};
ghost use Rattle.cfg_text.specs.Fun.{function_of};
ghost use Rattle.key_types.specs.Segments.{key_told};
ghost use Rattle.scaling_model.specs.Bound.{most_digits, phase_bound};
ghost use Rattle.repair_maker.specs.Repaired.{IsRepaired};
ghost use Rattle.repair_maker.specs.Solver.{TookFew};
ghost use Rattle.repair_maker.specs.Told.{edges_told};

use crate::solver::Solver;
use crate::weighed::weighed;
use block_weights::{EdgeSamples, SegmentCounts, weights};
use cfg_text::{Fun, Weight};
use flow_network::{Net, Solved, net_of};
use refusal::NoMemory;
use std::alloc::Global;

/// The weights of a function's blocks and edges, its network by these, and what repairs it.
#[derive(Debug, Drop)]
pub(crate) struct Repaired {
    pub(crate) weights: Vec<Weight>,
    pub(crate) edge_weights: Vec<Weight>,
    pub(crate) net: Net,
    pub(crate) solved: Solved,
}

/// Weighs a function and solves its network: counts of least cost with prices that fit them, or a
/// cut.
pub(crate) fn repair(
    alloc: Global,
    fun: &Fun<'_>,
    counted: &SegmentCounts<'_>,
    edges: Option<&EdgeSamples>,
    solver: &mut Solver,
) -> Result<Repaired, NoMemory>
    requires small { All (λ count. count < 2 ^ bound_bits) counted.now.counts }
    requires sound { IsSound fun.now.blocks fun.now.edges }
    requires room { solver.old ≤ 2 ^ 63 }
    ensures repaired { IfOk result (λ made. IsRepaired
        (key_told counted.now.segments) (count_in counted.now.counts) (edges_told edges.entry)
        (function_of fun.now) made.weights.items made.edge_weights.items made.net made.solved) }
    ensures counted { IfOk result (λ made. TookFew made.net solver.old solver.new) }
    ensures few { IfOk result (λ made.
        solver.new ≤ solver.old + (most_digits + 1) * phase_bound made.net) }
{
    let weights = weights(alloc, fun, counted)?;
    let edge_weights = weighed(alloc, fun, edges, &weights)?;
    let net = net_of(alloc, fun, &weights, &edge_weights)?;
    let solved = solver.solve(alloc, &net)?;
    Ok(Repaired {
        weights,
        edge_weights,
        net,
        solved,
    })
}
