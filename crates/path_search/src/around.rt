// The steps over all arcs that meet a side.
ghost use Rattle.std.specs.Prelude.{◌*◌, ◌≤◌, length, OnOk};
ghost use Rattle.path_search.specs.Ground.{IsGround};
ghost use Rattle.path_search.specs.Search.{ComeNearer, IsLooking, LedBack, LedOut};
ghost use Rattle.path_search.specs.Ways.{KeepWays};

use crate::look::{look_against, look_along};
use flow_network::Net;
use reached_sides::{Frontier, Marks};
use refusal::NoMemory;

/// Looks over each arc that meets a side, which is settled at a distance.
pub(crate) fn look_around(
    marks: &mut Marks,
    frontier: &mut Frontier,
    net: &Net,
    counts: &[u64],
    prices: &[i64],
    side: u32,
    distance: u64,
) -> Result<(), NoMemory>
    requires ground { IsGround net.now counts.now prices.now }
    requires side { side ≤ 2 * length net.now.blocks }
    requires looking { IsLooking prices.now marks.old frontier.old distance }
    ensures looking { OnOk result (IsLooking prices.now marks.new frontier.new distance) }
    ensures nearer { OnOk result (ComeNearer marks.old marks.new) }
    ensures out { OnOk result (LedOut net.now counts.now prices.now marks.new distance side) }
    ensures back { OnOk result (LedBack net.now counts.now prices.now marks.new distance side) }
    ensures ways { OnOk result
        (KeepWays net.now counts.now prices.now side distance marks.old marks.new) }
{
    look_out(marks, frontier, net, counts, prices, side, distance)?;
    look_back(marks, frontier, net, counts, prices, side, distance)?;
    Ok(())
}

/// Looks along each arc that leaves a side.
fn look_out(
    marks: &mut Marks,
    frontier: &mut Frontier,
    net: &Net,
    counts: &[u64],
    prices: &[i64],
    side: u32,
    distance: u64,
) -> Result<(), NoMemory>
    requires ground { IsGround net.now counts.now prices.now }
    requires side { side ≤ 2 * length net.now.blocks }
    requires looking { IsLooking prices.now marks.old frontier.old distance }
    ensures looking { OnOk result (IsLooking prices.now marks.new frontier.new distance) }
    ensures nearer { OnOk result (ComeNearer marks.old marks.new) }
    ensures out { OnOk result (LedOut net.now counts.now prices.now marks.new distance side) }
    ensures ways { OnOk result
        (KeepWays net.now counts.now prices.now side distance marks.old marks.new) }
{
    let arcs = net.arcs();
    let row = net.leaving(side);
    for place in row {
        let at = *place as usize;
        look_along(
            marks, frontier, prices, distance, *place, &arcs[at], counts[at],
        )?;
    }
    Ok(())
}

/// Looks against each arc that enters a side.
fn look_back(
    marks: &mut Marks,
    frontier: &mut Frontier,
    net: &Net,
    counts: &[u64],
    prices: &[i64],
    side: u32,
    distance: u64,
) -> Result<(), NoMemory>
    requires ground { IsGround net.now counts.now prices.now }
    requires side { side ≤ 2 * length net.now.blocks }
    requires looking { IsLooking prices.now marks.old frontier.old distance }
    ensures looking { OnOk result (IsLooking prices.now marks.new frontier.new distance) }
    ensures nearer { OnOk result (ComeNearer marks.old marks.new) }
    ensures back { OnOk result (LedBack net.now counts.now prices.now marks.new distance side) }
    ensures ways { OnOk result
        (KeepWays net.now counts.now prices.now side distance marks.old marks.new) }
{
    let arcs = net.arcs();
    let row = net.entering(side);
    for place in row {
        let at = *place as usize;
        look_against(
            marks, frontier, prices, distance, *place, &arcs[at], counts[at],
        )?;
    }
    Ok(())
}
