// What the solver with a ledger finds, and that it tells the ledger.
ghost use Rattle.flow_model.specs.Sound.{AreWeights};

use crate::of_flow_solver::{known, two_ways, unknown};
use cfg_text::Weight;
use flow_network::{Net, Solved, cost};
use flow_scaling::{Steps, Tally, fits, solve_scaled};
use refusal::NoMemory;
use std::alloc::Global;

/// What a network costs at least, or `None` for a cut; `NoMemory` where its counts to start from
/// are too great.
pub(crate) fn scaled_cost(alloc: Global, net: &Net) -> Result<Option<u128>, NoMemory> {
    if !fits(net) {
        return Err(NoMemory);
    }
    let mut steps = Steps {
        ledger: Tally::new(),
    };
    match solve_scaled(alloc, net, &mut steps)? {
        Solved::Flow(flow, _) => Ok(Some(cost(net, &flow))),
        Solved::Cut(_) => Ok(None),
    }
}

#[test]
fn the_ledger_is_told_of_augmentations(rt: HostRuntime) {
    let alloc = rt.alloc();
    let sampled = known([100, 60, 0, 100]);
    let Ok(net) = two_ways(alloc, 0, None, &sampled, &unknown()) else {
        panic!(rt; "no memory");
    };
    assert!(rt; fits(&net));
    if !fits(&net) {
        return;
    }
    let mut steps = Steps {
        ledger: Tally::new(),
    };
    let Ok(Solved::Flow(flow, _)) = solve_scaled(alloc, &net, &mut steps) else {
        panic!(rt; "no counts");
    };
    assert_eq!(rt; cost(&net, &flow), 400);
    // At most 8 phases of 288: there are 4 blocks and 4 edges, and 100 has 7 digits.
    let ticks = steps.ledger.ticks();
    assert!(rt; 1 <= ticks && ticks <= 2304, "{ticks}");
}

/// The greatest weight with which a network fits.
const GREATEST: u64 = (1 << 36) - 1;

/// Blocks 0 and 3 so often, block 1 as often as `middle` says, and block 2 never.
fn great(middle: u32) -> [Weight; 4]
    ensures { AreWeights 4 result }
{
    [
        Weight::Known(GREATEST),
        Weight::Known(u64::from(middle)),
        Weight::Known(0),
        Weight::Known(GREATEST),
    ]
}

#[test]
fn the_greatest_weights_cost_what_they_differ_by(rt: HostRuntime) {
    let alloc = rt.alloc();
    // A unit more on block 1 costs 10; of block 2, which was not sampled, it would cost more.
    for (middle, costs) in [(60, 687194766750), (1, 687194767340)] {
        let Ok(net) = two_ways(alloc, 0, None, &great(middle), &unknown()) else {
            panic!(rt; "no memory");
        };
        assert_eq!(rt; scaled_cost(alloc, &net), Ok(Some(costs)));
    }
}
