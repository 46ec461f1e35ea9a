// The lines of repairs, tested one behind the other.
ghost use Rattle.std.specs.Prelude.{◌≡◌, ◌+◌, ◌≤◌, ◌^◌, ℕ, length, map, IfOk};
ghost use Rattle.std.specs.List.{All, AllZip};
ghost use Rattle.cfg_text.specs.Fun.{function_of};
ghost use Rattle.flow_model.specs.Cut.{least_in, most_out};
ghost use Rattle.flow_model.specs.Network.{arcs_of};
ghost use Rattle.flow_model.specs.Repair.{AreCounts};
ghost use Rattle.flow_model.specs.Sound.{IsSound};
ghost use Rattle.flow_model.specs.Sides.{AreSides};
ghost use Rattle.flow_network.specs.Flow.{counts_of, holds};
ghost use Rattle.repair_model.specs.Checking as model;
ghost use Rattle.repair_model.specs.Laws.{IsToldOf};
ghost use Rattle.repair_model.specs.Repair as told;
ghost use Rattle.repair_text.specs.Repair.{numbered, repair_of};

use cfg_text::Fun;
use dual_check::{Spot, first_bad};
use flow_network::{Flow, Net, Nodes, Prices, Solved, cost, cut_sums, net_of};
use refusal::NoMemory;
use repair_text::{Repair, unknown_weights};
use std::alloc::Global;

/// The number of the first line, from 1, that fails its test; `None` where each repair keeps what
/// it promises. There is a repair of each function, in order, as `repair_text::read` gives them.
///
/// The line of a block passes where its count is within its bounds and balances at both sides, and
/// the prices fit it, its calls and its returns; that of an edge where its count is within its
/// bounds and the prices fit it; the last line of counts where the cost is theirs; the last line of
/// a cut where its sums are those of the set and the first is above the second.
///
/// # Errors
/// `NoMemory`.
pub fn failed_line(
    alloc: Global,
    funs: &[Fun<'_>],
    repairs: &[Repair],
) -> Result<Option<u64>, NoMemory>
    requires sound { All (λ fun. IsSound fun.blocks fun.edges) funs.now }
    requires told { AllZip IsToldOf (map function_of funs.now) (map numbered repairs.now) }
    ensures { IfOk result (λ line. line
        ≡ model.failed_line (map function_of funs.now) (map numbered repairs.now)) }
{
    for (at, fun) in funs.iter().enumerate() {
        let failed = failed_in(alloc, fun, &repairs[at])?;
        if failed.is_some() {
            return Ok(failed);
        }
    }
    Ok(None)
}

/// The line of a repair of this function that is the first to fail its test.
fn failed_in(alloc: Global, fun: &Fun<'_>, repair: &Repair) -> Result<Option<u64>, NoMemory>
    requires sound { IsSound fun.now.blocks fun.now.edges }
    requires told { IsToldOf (function_of fun.now) (numbered repair.now) }
    ensures { IfOk result (λ line. line
        ≡ model.failed_in (function_of fun.now) repair.now.line (repair_of repair.now)) }
{
    let weights = repair.weights.as_slice();
    match &repair.solved {
        Solved::Flow(flow, prices) => {
            let net = net_of(alloc, fun, weights, repair.edge_weights.as_slice())?;
            Ok(failed_count(&net, flow, prices, repair.line + 1, repair.first))
        }
        Solved::Cut(nodes) => {
            let edge_weights = unknown_weights(alloc, fun)?;
            let net = net_of(alloc, fun, weights, &edge_weights)?;
            Ok(failed_cut(&net, nodes, repair))
        }
    }
}

/// The line of counts that is the first to fail, the first of them having this number.
fn failed_count(net: &Net, flow: &Flow, prices: &Prices, line: u64, cost_told: u128) -> Option<u64>
    requires counted { AreCounts net.now (counts_of flow.now) }
    requires priced { AreSides net.now prices.now.ins prices.now.outs }
    requires before { line ≤ 2 ^ 63 + 1 }
    ensures { (second : ℕ) → result ≡ model.first_failing line (model.tests_of net.now
        (told.flow (counts_of flow.now) prices.now.ins prices.now.outs) cost_told second) }
{
    let blocks = net.block_count() as u64;
    let edges = net.edge_count() as u64;
    match first_bad(net, flow, prices) {
        Some(Spot::Block(block)) => Some(line + u64::from(block)),
        Some(Spot::Edge(edge)) => Some(line + blocks + u64::from(edge)),
        None if cost(net, flow) == cost_told => None,
        None => Some(line + blocks + edges),
    }
}

/// The last line of a cut, if it fails.
fn failed_cut(net: &Net, nodes: &Nodes, repair: &Repair) -> Option<u64>
    requires sided { AreSides net.now nodes.now.ins nodes.now.outs }
    requires before { repair.now.line ≤ 2 ^ 63 }
    ensures { result ≡ model.first_failing (repair.now.line + 1) (model.tests_of net.now
        (told.cut nodes.now.root nodes.now.ins nodes.now.outs) repair.now.first repair.now.second) }
{
    if is_cut(net, nodes, repair.first, repair.second) {
        None
    } else {
        Some(repair.line + 1 + net.block_count() as u64)
    }
}

/// Whether a set of sides is a cut with these sums.
fn is_cut(net: &Net, nodes: &Nodes, first: u128, second: u128) -> bool
    requires { AreSides net.now nodes.now.ins nodes.now.outs }
    ensures { result ≡ model.is_cut_of (most_out (holds nodes.now) (arcs_of net.now))
        (least_in (holds nodes.now) (arcs_of net.now)) first second }
{
    match cut_sums(net, nodes) {
        Some((least, most)) => first == least && second == most && second < first,
        None => false,
    }
}
