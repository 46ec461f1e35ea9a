// What the phases work on.
ghost use Rattle.std.specs.Prelude.{◌≡◌, ◌+◌, ◌^◌, ◌<◌, length, true, false, IfOk, OnOk};
ghost use Rattle.flow_model.specs.Network.{arcs_of};
ghost use Rattle.scaling_model.specs.Bound.{RisesWithin};
ghost use Rattle.flow_phases.specs.Phase.{IsClosedIn, IsEvened, IsFresh, IsReady};

use crate::phase::run_phase;
use flow_balance::Workspace;
use flow_network::Net;
use refusal::NoMemory;
use std::alloc::Global;

/// A count for each arc of a network, a price and an excess for each side, and what augmentations
/// work with.
#[derive(Debug, Drop)]
pub(crate) struct State {
    pub counts: Vec<u64>,
    pub prices: Vec<i64>,
    pub excess: Vec<i64>,
    pub work: Workspace,
}

impl State {
    /// Zeros for each arc and side of a network.
    pub fn new(alloc: Global, net: &Net) -> Result<State, NoMemory>
        ensures { IfOk result (IsFresh net.now) }
    {
        let sides = 2 * net.block_count() + 1;
        Ok(State {
            counts: vec![in alloc; 0u64; net.arcs().len()]?,
            prices: vec![in alloc; 0i64; sides]?,
            excess: vec![in alloc; 0i64; sides]?,
            work: Workspace::new(alloc, sides, 0)?,
        })
    }

    /// Runs a phase on these counts, with these prices and this excess.
    pub fn run(&mut self, units: &Net, augmentations: &mut u64) -> Result<bool, NoMemory>
        requires ready { IsReady units.now self.old }
        requires room { augmentations.old + length (arcs_of units.now) < 2 ^ 64 }
        ensures marked { OnOk result
            (length self.new.work.search.marks ≡ length self.old.prices.items) }
        ensures evened { IfOk result (λ is_even. is_even ≡ true
            → IsEvened units.now self.old self.new) }
        ensures closed { IfOk result (λ is_even. is_even ≡ false
            → IsClosedIn units.now self.new) }
        ensures counted { RisesWithin (length (arcs_of units.now))
            augmentations.old augmentations.new }
    {
        run_phase(
            units,
            &mut self.counts,
            &mut self.prices,
            &mut self.excess,
            &mut self.work,
            augmentations,
        )
    }
}
