// One phase.
ghost use Rattle.std.specs.Prelude.{◌≡◌, ◌+◌, ◌^◌, ◌<◌, ◌≤◌, length, true, false, IfOk, OnOk};
ghost use Rattle.flow_model.specs.Network.{arcs_of};
ghost use Rattle.flow_balance.specs.Excess.{surplus};
ghost use Rattle.flow_balance.specs.State.{AreLater, IsClosedFrom, IsDone, IsState};
ghost use Rattle.scaling_model.specs.Bound.{RisesWithin};

use flow_balance::{Outcome, Workspace, balance};
use flow_network::Net;
use refusal::NoMemory;

/// Balances counts whose excess is at most the number of arcs, and counts the augmentations. False
/// where from some side that has excess none can be reached that lacks counts: what was reached is
/// a cut.
pub(crate) fn run_phase(
    net: &Net,
    counts: &mut [u64],
    prices: &mut [i64],
    excess: &mut [i64],
    work: &mut Workspace,
    augmentations: &mut u64,
) -> Result<bool, NoMemory>
    requires state { IsState net.now counts.old prices.old excess.old }
    requires few { surplus excess.old ≤ length (arcs_of net.now) }
    requires marked { length work.old.search.marks ≡ length prices.old }
    requires room { augmentations.old + length (arcs_of net.now) < 2 ^ 64 }
    ensures marked { OnOk result (length work.new.search.marks ≡ length prices.new) }
    ensures evened { IfOk result (λ is_even. is_even ≡ true
        → IsDone net.now counts.new prices.new excess.new
        × AreLater counts.old prices.old excess.old counts.new prices.new excess.new) }
    ensures closed { IfOk result (λ is_even. is_even ≡ false
        → IsClosedFrom net.now counts.new prices.new excess.new work.new.search.marks) }
    ensures counted { RisesWithin (length (arcs_of net.now))
        augmentations.old augmentations.new }
{
    let most = net.arcs().len() as u64 + 1;
    work.left = most;
    let end = balance(net, counts, prices, excess, work)?;
    *augmentations += most - work.left;
    match end {
        Outcome::Even => Ok(true),
        Outcome::Closed => Ok(false),
        Outcome::Spent => unreachable!(),
    }
}
