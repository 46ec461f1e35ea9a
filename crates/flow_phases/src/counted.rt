// The whole solver: a plain run, and phases where that does not end.
ghost use Rattle.std.specs.Prelude.{◌+◌, ◌*◌, ◌^◌, ◌<◌, ◌≤◌, IfOk, IfSome};
ghost use Rattle.flow_balance.specs.Solved.{Solves};
ghost use Rattle.scaling_model.specs.Bound.{AreFew, RisesWithin, size_of};

use crate::digits::digits_of;
use crate::phases::solve_in_phases;
use flow_balance::solve_within;
use flow_network::{Net, Solved};
use refusal::NoMemory;
use std::alloc::Global;

/// Counts of least cost that conserve within bounds, with prices that fit them; or a cut, exactly
/// where no counts conserve within bounds.
///
/// The augmentations that led to it are added to `augmentations`, `32 * (blocks + edges + 1)` at
/// most for each binary digit of the greatest count to start from, and so many once more; also
/// where memory is wanting. No network has 2^19 blocks and edges.
///
/// # Errors
/// `NoMemory`.
///
/// Source: "Network Flows", 3.3, 9.7 and 10.2.
pub fn solve_counted(alloc: Global, net: &Net, augmentations: &mut u64) -> Result<Solved, NoMemory>
    requires room { augmentations.old ≤ 2 ^ 63 }
    ensures solved { IfOk result (Solves net.now) }
    ensures counted { AreFew net.now augmentations.old augmentations.new }
    ensures small { size_of net.now < 2 ^ 19 }
{
    match solve_plainly(alloc, net, augmentations)? {
        Some(solved) => Ok(solved),
        None => solve_in_phases(alloc, net, digits_of(net), augmentations),
    }
}

/// Solves a network without units, if few augmentations are enough. They are for most functions.
// Why: 16 augmentations for each block and edge, as real repairs are local: those of lua took 3,444
// in all, and no function of a program that was tried spends them.
fn solve_plainly(
    alloc: Global,
    net: &Net,
    augmentations: &mut u64,
) -> Result<Option<Solved>, NoMemory>
    requires room { augmentations.old ≤ 2 ^ 63 }
    ensures solved { IfOk result (λ solved. IfSome solved (Solves net.now)) }
    ensures counted { RisesWithin (16 * size_of net.now) augmentations.old augmentations.new }
    ensures room { augmentations.new < 2 ^ 63 + 2 ^ 32 }
    ensures small { size_of net.now < 2 ^ 19 }
{
    let most = 16 * (net.block_count() + net.edge_count() + 1) as u64;
    let mut left = most;
    let solved = solve_within(alloc, net, &mut left)?;
    *augmentations += most - left;
    Ok(solved)
}
