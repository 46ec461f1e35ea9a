// One augmentation: a search, the prices that it moves, and a push along the way that it finds.
ghost use Rattle.std.specs.Prelude.{◌≡◌, ◌+◌, ◌^◌, ◌<◌, ◌≤◌, ℕ, length, min, true, false, Some, pos, ◌<ℤ◌, ◌≤ℤ◌};
ghost use Rattle.std.specs.Prelude.{IfOk, OnOk};
ghost use Rattle.std.specs.List.{All};
ghost use Rattle.flow_model.specs.Network.{arcs_of};
ghost use Rattle.path_search.specs.Ground.{count_at, price_at};
ghost use Rattle.path_search.specs.Task.{task_of};
ghost use Rattle.path_search.specs.Found.{HasEnded};
ghost use Rattle.path_search.specs.Path.{AreApart, IsOpenStep};
ghost use Rattle.flow_balance.specs.Excess.{lack_of, surplus_of};
ghost use Rattle.flow_balance.specs.State.{AreSpent, CanGoOn, HasMoved, IsAugmented};
ghost use Rattle.flow_balance.specs.State.{IsClosedFrom, IsState};

use crate::excess::transfer;
use crate::prices::level;
use flow_network::Net;
use path_search::{Ground, Search, Step, least_room, push, trace};
use refusal::NoMemory;
use std::alloc::Global;

/// What augmentations work with, kept from one to the next.
#[derive(Debug, Drop)]
pub struct Workspace {
    /// What the last search came to.
    pub search: Search,
    pub(crate) path: Vec<Step>,
    /// How many augmentations may still be made.
    pub left: u64,
}

impl Workspace {
    /// For a network of so many sides, and so many augmentations.
    pub fn new(alloc: Global, sides: usize, left: u64) -> Result<Workspace, NoMemory>
        ensures marked { IfOk result (λ work. length work.search.marks ≡ sides) }
        ensures left { IfOk result (λ work. work.left ≡ left) }
    {
        let search = Search::new(alloc, sides)?;
        Ok(Workspace {
            search,
            path: Vec::new(alloc),
            left,
        })
    }
}

/// Takes excess from a source to sides that lack counts, the nearest first, for as long as one
/// search serves and augmentations may be made; false exactly where no such side can be reached.
// Why: A search goes on where the push left each step of the way open at the same cost. Where a
// step is full, the next search begins anew: to keep the nodes whose ways are whole was tried, and
// was no quicker (2026-11-29). An augmentation moves all that its way takes, and lowers the excess
// by at least 1, so no budget is needed.
pub(crate) fn augment(
    net: &Net,
    counts: &mut [u64],
    prices: &mut [i64],
    excess: &mut [i64],
    source: u32,
    work: &mut Workspace,
) -> Result<bool, NoMemory>
    requires state { IsState net.now counts.old prices.old excess.old }
    requires marked { length work.old.search.marks ≡ length prices.old }
    requires source { source < length excess.old }
    requires gathers { pos 0 <ℤ price_at excess.old source }
    requires some { 0 < work.old.left }
    ensures marked { OnOk result (length work.new.search.marks ≡ length prices.new) }
    ensures spent { OnOk result
        (AreSpent work.old.left excess.old work.new.left excess.new) }
    ensures augmented { IfOk result (λ found. found ≡ true
        → IsAugmented net.now counts.old prices.old excess.old
        counts.new prices.new excess.new) }
    ensures closed { IfOk result (λ found. found ≡ false
        → IsClosedFrom net.now counts.new prices.new excess.new work.new.search.marks) }
{
    let ground = Ground {
        net,
        counts,
        prices,
        excess,
    };
    let mut found = work.search.find(ground, source)?;
    while let Some(side) = found {
        if !augment_to(net, counts, prices, excess, source, side, work)? {
            return Ok(true);
        }
        let ground = Ground {
            net,
            counts,
            prices,
            excess,
        };
        found = work.search.go_on(ground, source, side)?;
    }
    Ok(false)
}

/// Takes excess from a source to a side that a search has come to. Whether the search can go on
/// from there: each step of the way takes more, the source has more, the side lacks nothing any
/// more, and one more augmentation may be made.
fn augment_to(
    net: &Net,
    counts: &mut [u64],
    prices: &mut [i64],
    excess: &mut [i64],
    source: u32,
    side: u32,
    work: &mut Workspace,
) -> Result<bool, NoMemory>
    requires state { IsState net.now counts.old prices.old excess.old }
    requires ended { HasEnded (task_of net.now counts.old prices.old excess.old source)
        work.old.search (Some side) }
    requires source { source < length excess.old }
    requires gathers { pos 0 <ℤ price_at excess.old source }
    requires some { 0 < work.old.left }
    ensures kept { OnOk result
        (length work.new.search.marks ≡ length work.old.search.marks) }
    ensures one { OnOk result (work.new.left + 1 ≡ work.old.left) }
    ensures augmented { OnOk result
        (IsAugmented net.now counts.old prices.old excess.old
        counts.new prices.new excess.new) }
    ensures some { IfOk result (λ goes_on. goes_on ≡ true → 0 < work.new.left) }
    ensures goes_on { IfOk result (λ goes_on. goes_on ≡ true
        → CanGoOn (task_of net.now counts.new prices.new excess.new source)
        work.new.search side) }
{
    let limit = work.search.distance_to(side);
    level(prices, &mut work.search.marks, &work.search.order, limit);
    trace(net, &work.search.marks, source, side, &mut work.path)?;
    let more = move_counts(net, counts, excess, source, side, &work.path);
    work.left -= 1;
    Ok(can_go_on(more, work.left, excess, source, side))
}

/// Whether a search can go on from a side, where the way there takes more or not, and so many
/// augmentations may still be made.
fn can_go_on(more: bool, left: u64, excess: &[i64], source: u32, side: u32) -> bool
    requires source { source < length excess.now }
    requires side { side < length excess.now }
    ensures { result ≡ true → (more ≡ true) × (0 < left)
        × (pos 0 <ℤ price_at excess.now source) × (pos 0 ≤ℤ price_at excess.now side) }
{
    more && left > 0 && excess[source as usize] > 0 && excess[side as usize] >= 0
}

/// Moves as much along a way as the source has, the side at its end lacks and the way takes.
/// Whether the way takes more.
pub(crate) fn move_counts(
    net: &Net,
    counts: &mut [u64],
    excess: &mut [i64],
    source: u32,
    side: u32,
    path: &[Step],
) -> bool
    requires counted { length counts.old ≡ length (arcs_of net.now) }
    requires leave { All (IsOpenStep (arcs_of net.now) counts.old) path.now }
    requires apart { AreApart path.now }
    requires source { source < length excess.old }
    requires side { side < length excess.old }
    requires gathers { pos 0 <ℤ price_at excess.old source }
    requires lacks { price_at excess.old side <ℤ pos 0 }
    requires bounded { (place : ℕ)
        → count_at counts.old place + surplus_of (price_at excess.old source) < 2 ^ 64 }
    ensures { HasMoved (arcs_of net.now) counts.old excess.old source side path.now
        counts.new excess.new result }
{
    let most = most_between(excess[source as usize], excess[side as usize]);
    let room = least_room(net.arcs(), counts, path, most + 1);
    let amount = room.min(most);
    push(counts, path, amount);
    transfer(excess, source, side, amount);
    room > most
}

/// What one side has too much and another one lacks.
fn most_between(gathers: i64, lacks: i64) -> u64
    requires gathers { pos 0 <ℤ gathers }
    requires lacks { lacks <ℤ pos 0 }
    ensures some { 0 < result }
    ensures small { result < 2 ^ 63 }
    ensures least { result ≡ min (surplus_of gathers) (lack_of lacks) }
{
    (gathers as u64).min(lacks.unsigned_abs())
}
