// A network solved within so many augmentations.
ghost use Rattle.std.specs.Prelude.{◌≡◌, ◌^◌, ◌<◌, ◌≤◌, List, length, ℤ, pos, replicate, None, IfOk, IfSome};
ghost use Rattle.flow_model.specs.Network.{arcs_of};
ghost use Rattle.path_search.specs.Ground.{sides_of};
ghost use Rattle.flow_balance.specs.Solved.{Solves};
ghost use Rattle.flow_balance.specs.State.{IsDone, IsStart};

use crate::answer::{flow_of, prices_of, reached};
use crate::augmenting::Workspace;
use crate::balancing::{Outcome, balance};
use crate::excess::is_even;
use crate::starting::start;
use flow_network::{Net, Solved};
use refusal::NoMemory;
use std::alloc::Global;

/// Counts of least cost that conserve within bounds, with prices that fit them; or a cut, exactly
/// where no counts conserve within bounds; or `None`, only where as many augmentations were made as
/// are left. Those that were made are taken from what is left.
///
/// 2^63 augmentations are enough for any network.
// Why: Augmentations are counted down, so that each network begins in the plain way and goes on in
// phases where so many are spent. Which least counts are told then is free: those of the phases.
pub fn solve_within(alloc: Global, net: &Net, left: &mut u64) -> Result<Option<Solved>, NoMemory>
    ensures solved { IfOk result (λ solved. IfSome solved (Solves net.now)) }
    ensures none { IfOk result (λ solved. solved ≡ None → left.old < 2 ^ 63) }
    ensures fewer { left.new ≤ left.old }
{
    let sides = 2 * net.block_count() + 1;
    let mut counts = vec![in alloc; 0u64; net.arcs().len()]?;
    let mut prices = vec![in alloc; 0i64; sides]?;
    let mut excess = vec![in alloc; 0i64; sides]?;
    solve_in(alloc, net, &mut counts, &mut prices, &mut excess, left)
}

/// Solves a network in lists of zeros, a count for each arc, and a price and an excess for each
/// side. Only where some side has excess is there anything to search for.
fn solve_in(
    alloc: Global,
    net: &Net,
    counts: &mut [u64],
    prices: &mut [i64],
    excess: &mut [i64],
    left: &mut u64,
) -> Result<Option<Solved>, NoMemory>
    requires counts { counts.old ≡ replicate (length (arcs_of net.now)) 0 }
    requires prices { prices.old ≡ replicate (sides_of net.now) (pos 0) }
    requires excess { excess.old ≡ replicate (sides_of net.now) (pos 0) }
    ensures solved { IfOk result (λ solved. IfSome solved (Solves net.now)) }
    ensures none { IfOk result (λ solved. solved ≡ None → left.old < 2 ^ 63) }
    ensures fewer { left.new ≤ left.old }
{
    start(net, counts, excess);
    if is_even(excess) {
        return Ok(Some(least(alloc, net, counts, prices)?));
    }
    let sides = 2 * net.block_count() + 1;
    let mut work = Workspace::new(alloc, sides, *left)?;
    let solved = solve_begun(alloc, net, counts, prices, excess, &mut work)?;
    *left = work.left;
    Ok(solved)
}

/// Counts that are even with prices that fit them.
fn least(alloc: Global, net: &Net, counts: &[u64], prices: &[i64]) -> Result<Solved, NoMemory>
    requires { (excess : List ℤ) × IsDone net.now counts.now prices.now excess }
    ensures { IfOk result (Solves net.now) }
{
    let flow = flow_of(alloc, net, counts)?;
    let told = prices_of(alloc, net, prices)?;
    Ok(Solved::Flow(flow, told))
}

/// Solves a network from the counts to start from, with prices of 0.
fn solve_begun(
    alloc: Global,
    net: &Net,
    counts: &mut [u64],
    prices: &mut [i64],
    excess: &mut [i64],
    work: &mut Workspace,
) -> Result<Option<Solved>, NoMemory>
    requires start { IsStart net.now counts.old excess.old }
    requires prices { prices.old ≡ replicate (sides_of net.now) (pos 0) }
    requires marked { length work.old.search.marks ≡ sides_of net.now }
    ensures solved { IfOk result (λ solved. IfSome solved (Solves net.now)) }
    ensures none { IfOk result (λ solved. solved ≡ None → work.old.left < 2 ^ 63) }
    ensures fewer { IfOk result (λ solved. work.new.left ≤ work.old.left) }
{
    match balance(net, counts, prices, excess, work)? {
        Outcome::Even => Ok(Some(least(alloc, net, counts, prices)?)),
        Outcome::Closed => {
            let nodes = reached(alloc, net, &work.search.marks)?;
            Ok(Some(Solved::Cut(nodes)))
        }
        Outcome::Spent => Ok(None),
    }
}
