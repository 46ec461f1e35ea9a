// How much the steps of a way take.
ghost use Rattle.std.specs.Prelude.{◌≡◌, ◌^◌, ◌<◌, ◌≤◌, ℕ, length};
ghost use Rattle.std.specs.List.{All};
ghost use Rattle.path_search.specs.Ways.{IsOpen};
ghost use Rattle.path_search.specs.Path.{IsOpenStep, StepTakes, Takes};

use crate::step::Step;
use flow_network::Arc;
use reached_sides::Way;

/// As much of an amount as each step of a way takes at the same cost for each unit.
pub fn least_room(arcs: &[Arc], counts: &[u64], path: &[Step], most: u64) -> u64
    requires counted { length counts.now ≡ length arcs.now }
    requires leaves { All (IsOpenStep arcs.now counts.now) path.now }
    requires some { 0 < most }
    ensures some { 0 < result }
    ensures within { result ≤ most }
    ensures takes { All (StepTakes arcs.now counts.now result) path.now }
    ensures greatest { (amount : ℕ) → amount ≤ most
        → All (StepTakes arcs.now counts.now amount) path.now → amount ≤ result }
{
    let mut least = most;
    for step in path {
        let at = step.arc as usize;
        least = least.min(room(&arcs[at], step.way, counts[at]));
    }
    least
}

/// How much an open step takes at the same cost for each unit, within 64 bits.
fn room(arc: &Arc, way: Way, count: u64) -> u64
    requires { IsOpen way arc.now count }
    ensures some { 0 < result }
    ensures takes { (amount : ℕ) → amount ≤ result → Takes way arc.now count amount }
    ensures greatest { (amount : ℕ) → amount < 2 ^ 64
        → Takes way arc.now count amount → amount ≤ result }
{
    match way {
        Way::Along => room_along(arc, count),
        Way::Against => room_against(arc, count),
    }
}

/// How many more may pass on an arc, all of them below the weight or all above it.
fn room_along(arc: &Arc, count: u64) -> u64
    requires { IsOpen Way.Along arc.now count }
    ensures some { 0 < result }
    ensures takes { (amount : ℕ) → amount ≤ result → Takes Way.Along arc.now count amount }
    ensures greatest { (amount : ℕ) → amount < 2 ^ 64
        → Takes Way.Along arc.now count amount → amount ≤ result }
{
    let bounded = match arc.upper {
        Some(upper) => upper - count,
        None => u64::MAX,
    };
    if count < arc.weight {
        bounded.min(arc.weight - count)
    } else {
        bounded
    }
}

/// How many fewer may pass on an arc, all of them below the weight or all above it.
fn room_against(arc: &Arc, count: u64) -> u64
    requires { IsOpen Way.Against arc.now count }
    ensures some { 0 < result }
    ensures takes { (amount : ℕ) → amount ≤ result → Takes Way.Against arc.now count amount }
    ensures greatest { (amount : ℕ) → amount < 2 ^ 64
        → Takes Way.Against arc.now count amount → amount ≤ result }
{
    let bounded = count - arc.lower;
    if arc.weight < count {
        bounded.min(count - arc.weight)
    } else {
        bounded
    }
}
