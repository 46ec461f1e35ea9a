// The step over one arc, from the side that was settled last.
ghost use Rattle.std.specs.Prelude.{◌≡◌, ◌<◌, ◌≤◌, length, true, OnOk};
ghost use Rattle.flow_model.specs.Prices.{FitsOn};
ghost use Rattle.flow_network.specs.Cost.{IsCheap};
ghost use Rattle.path_search.specs.Ground.{price_at};
ghost use Rattle.path_search.specs.Search.{ComeNearer, IsLooking, LedAgainst, LedAlong, distance_at};
ghost use Rattle.path_search.specs.Ways.{MarksAtMost};

use crate::offer::offer;
use crate::steps::{cost_of_less, cost_of_more, reduced};
use flow_network::{Arc, is_below};
use reached_sides::{Frontier, Marks, Way};
use refusal::NoMemory;

/// Looks along an arc from its tail, which is settled at a distance, if one more may pass there.
pub(crate) fn look_along(
    marks: &mut Marks,
    frontier: &mut Frontier,
    prices: &[i64],
    distance: u64,
    place: u32,
    arc: &Arc,
    count: u64,
) -> Result<(), NoMemory>
    requires cheap { IsCheap arc.now }
    requires fits { FitsOn (price_at prices.now) arc.now count }
    requires starts { arc.now.tail < length prices.now }
    requires leads { arc.now.head < length prices.now }
    requires looking { IsLooking prices.now marks.old frontier.old distance }
    ensures looking { OnOk result (IsLooking prices.now marks.new frontier.new distance) }
    ensures nearer { OnOk result (ComeNearer marks.old marks.new) }
    ensures led { OnOk result (LedAlong prices.now marks.new distance arc.now count) }
    ensures marked { OnOk result
        (MarksAtMost Way.Along prices.now place distance arc.now count marks.old marks.new) }
{
    if is_within(marks, arc.head, distance) {
        return Ok(());
    }
    if !is_below(arc.upper, count) {
        return Ok(());
    }
    let more = reduced(prices, arc.tail, arc.head, cost_of_more(arc, count));
    offer(
        marks,
        frontier,
        arc.head,
        distance + more,
        place,
        Way::Along,
    )?;
    Ok(())
}

/// Looks against an arc from its head, which is settled at a distance, if one less may pass there.
pub(crate) fn look_against(
    marks: &mut Marks,
    frontier: &mut Frontier,
    prices: &[i64],
    distance: u64,
    place: u32,
    arc: &Arc,
    count: u64,
) -> Result<(), NoMemory>
    requires cheap { IsCheap arc.now }
    requires fits { FitsOn (price_at prices.now) arc.now count }
    requires starts { arc.now.head < length prices.now }
    requires leads { arc.now.tail < length prices.now }
    requires looking { IsLooking prices.now marks.old frontier.old distance }
    ensures looking { OnOk result (IsLooking prices.now marks.new frontier.new distance) }
    ensures nearer { OnOk result (ComeNearer marks.old marks.new) }
    ensures led { OnOk result (LedAgainst prices.now marks.new distance arc.now count) }
    ensures marked { OnOk result
        (MarksAtMost Way.Against prices.now place distance arc.now count marks.old marks.new) }
{
    if is_within(marks, arc.tail, distance) {
        return Ok(());
    }
    if count <= arc.lower {
        return Ok(());
    }
    let more = reduced(prices, arc.head, arc.tail, cost_of_less(arc, count));
    offer(
        marks,
        frontier,
        arc.tail,
        distance + more,
        place,
        Way::Against,
    )?;
    Ok(())
}

/// True only where a side is marked as no further away than this. No step costs less than nothing,
/// so none from a side at that distance brings it nearer.
//
// It is asked of each arc. To give sides without a mark the greatest distance, which would save the
// second arm, made the whole solver a fifth slower.
fn is_within(marks: &Marks, side: u32, distance: u64) -> bool
    requires { side < length marks.now }
    ensures { result ≡ true → distance_at marks.now side ≤ distance }
{
    match marks.get(side) {
        Some(mark) => mark.distance <= distance,
        None => false,
    }
}
