// The phases, from coarse units to units of 1.
ghost use Rattle.std.specs.Prelude.{◌≡◌, ◌+◌, ◌*◌, ◌^◌, ◌<◌, ◌≤◌, length, true, false, IfOk, OnOk};
ghost use Rattle.block_model.specs.Limits.{bound_bits};
ghost use Rattle.flow_model.specs.Sound.{IsNet};
ghost use Rattle.path_search.specs.Ground.{sides_of};
ghost use Rattle.flow_balance.specs.Solved.{Solves};
ghost use Rattle.scaling_model.specs.Bound.{RisesWithin, StartWithin, size_of};
ghost use Rattle.flow_phases.specs.Phase.{HasCome, IsClosed, IsDoneIn, IsFresh};

use crate::refining::{double, set_all_right};
use crate::state::State;
use flow_balance::{flow_of, prices_of, reached, start};
use flow_network::{Net, Solved};
use refusal::NoMemory;
use std::alloc::Global;

/// Solves a network in phases, where each count to start from has at most so many binary digits: a
/// phase in units in which each of them is at most 1, and one each time that the units are halved.
pub(crate) fn solve_in_phases(
    alloc: Global,
    net: &Net,
    digits: u32,
    augmentations: &mut u64,
) -> Result<Solved, NoMemory>
    requires digits { digits ≤ bound_bits }
    requires within { StartWithin digits net.now }
    requires room { augmentations.old < 2 ^ 63 + 2 ^ 32 }
    ensures solved { IfOk result (Solves net.now) }
    ensures counted { RisesWithin ((digits + 1) * (2 * size_of net.now))
        augmentations.old augmentations.new }
{
    let mut state = State::new(alloc, net)?;
    if !run_all(alloc, net, digits, &mut state, augmentations)? {
        let nodes = reached(alloc, net, &state.work.search.marks)?;
        return Ok(Solved::Cut(nodes));
    }
    let flow = flow_of(alloc, net, &state.counts)?;
    let told = prices_of(alloc, net, &state.prices)?;
    Ok(Solved::Flow(flow, told))
}

/// Runs all phases, from zeros; false where one of them ended with a cut.
fn run_all(
    alloc: Global,
    net: &Net,
    digits: u32,
    state: &mut State,
    augmentations: &mut u64,
) -> Result<bool, NoMemory>
    requires digits { digits ≤ bound_bits }
    requires within { StartWithin digits net.now }
    requires fresh { IsFresh net.now state.old }
    requires room { augmentations.old < 2 ^ 63 + 2 ^ 32 }
    ensures marked { OnOk result (length state.new.work.search.marks ≡ sides_of net.now) }
    ensures done { IfOk result (λ is_even. is_even ≡ true → IsDoneIn net.now state.new) }
    ensures closed { IfOk result (λ is_even. is_even ≡ false → IsClosed net.now state.new) }
    ensures counted { RisesWithin ((digits + 1) * (2 * size_of net.now))
        augmentations.old augmentations.new }
{
    if !run_first(alloc, net, digits, state, augmentations)? {
        return Ok(false);
    }
    for step in 0..digits {
        if !run_next(alloc, net, digits, step, state, augmentations)? {
            return Ok(false);
        }
    }
    Ok(true)
}

/// The first phase, in units in which each count to start from is at most 1.
fn run_first(
    alloc: Global,
    net: &Net,
    digits: u32,
    state: &mut State,
    augmentations: &mut u64,
) -> Result<bool, NoMemory>
    requires digits { digits ≤ bound_bits }
    requires within { StartWithin digits net.now }
    requires fresh { IsFresh net.now state.old }
    requires room { augmentations.old < 2 ^ 63 + 2 ^ 33 }
    ensures marked { OnOk result (length state.new.work.search.marks ≡ sides_of net.now) }
    ensures done { IfOk result (λ is_even. is_even ≡ true → HasCome net.now digits 0 state.new) }
    ensures closed { IfOk result (λ is_even. is_even ≡ false → IsClosed net.now state.new) }
    ensures counted { RisesWithin (2 * size_of net.now)
        augmentations.old augmentations.new }
{
    let units = net.coarse(alloc, digits)?;
    start(&units, &mut state.counts, &mut state.excess);
    state.run(&units, augmentations)
}

/// The phase behind so many others, in units of half the size.
fn run_next(
    alloc: Global,
    net: &Net,
    digits: u32,
    step: u32,
    state: &mut State,
    augmentations: &mut u64,
) -> Result<bool, NoMemory>
    requires of_a_function { IsNet net.now }
    requires digits { digits ≤ bound_bits }
    requires step { step < digits }
    requires come { HasCome net.now digits step state.old }
    requires marked { length state.old.work.search.marks ≡ sides_of net.now }
    requires room { augmentations.old < 2 ^ 63 + 2 ^ 33 }
    ensures marked { OnOk result (length state.new.work.search.marks ≡ sides_of net.now) }
    ensures done { IfOk result (λ is_even. is_even ≡ true
        → HasCome net.now digits (step + 1) state.new) }
    ensures closed { IfOk result (λ is_even. is_even ≡ false → IsClosed net.now state.new) }
    ensures counted { RisesWithin (2 * size_of net.now)
        augmentations.old augmentations.new }
{
    let units = net.coarse(alloc, digits - step - 1)?;
    double(&mut state.counts);
    set_all_right(&units, &mut state.counts, &state.prices, &mut state.excess);
    state.run(&units, augmentations)
}
