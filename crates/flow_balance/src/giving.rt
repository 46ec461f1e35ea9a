// Excess that goes over one arc.
ghost use Rattle.std.specs.Prelude.{◌≡◌, ◌+◌, ◌<◌, ◌≤◌, ◌*◌, length};
ghost use Rattle.flow_model.specs.Network.{arcs_of};
ghost use Rattle.flow_balance.specs.State.{AreSpent, IsGiven, IsState};

use crate::augmenting::move_counts;
use flow_network::Net;
use path_search::{Step, is_tight_along};
use reached_sides::Way;

/// Takes excess from a side straight to those that its arcs enter, as far as these lack counts and
/// a unit costs nothing there, for as long as augmentations may be made. Most excess is one arc
/// away from what lacks it, and so needs no search.
// Why: It saves four of five augmentations of made-up functions.
pub(crate) fn give_around(
    net: &Net,
    counts: &mut [u64],
    prices: &[i64],
    excess: &mut [i64],
    side: u32,
    left: &mut u64,
)
    requires state { IsState net.now counts.old prices.now excess.old }
    requires side { side ≤ 2 * length net.now.blocks }
    ensures given { IsGiven net.now counts.old prices.now excess.old
        counts.new prices.now excess.new }
    ensures spent { AreSpent left.old excess.old left.new excess.new }
{
    for place in net.leaving(side) {
        give_over(net, counts, prices, excess, *place, left);
    }
}

/// Takes excess over one arc.
fn give_over(
    net: &Net,
    counts: &mut [u64],
    prices: &[i64],
    excess: &mut [i64],
    place: u32,
    left: &mut u64,
)
    requires state { IsState net.now counts.old prices.now excess.old }
    requires inside { place < length (arcs_of net.now) }
    ensures given { IsGiven net.now counts.old prices.now excess.old
        counts.new prices.now excess.new }
    ensures spent { AreSpent left.old excess.old left.new excess.new }
{
    let at = place as usize;
    let arc = &net.arcs()[at];
    let gathers = excess[arc.tail as usize];
    let lacks = excess[arc.head as usize];
    if *left == 0 || gathers <= 0 || lacks >= 0 {
        return;
    }
    if !is_tight_along(arc, counts[at], prices) {
        return;
    }
    let step = Step {
        arc: place,
        way: Way::Along,
    };
    move_counts(net, counts, excess, arc.tail, arc.head, &[step]);
    spend_one(left);
}

/// One augmentation fewer may be made.
fn spend_one(left: &mut u64)
    requires { 0 < left.old }
    ensures { left.new + 1 ≡ left.old }
{
    *left -= 1;
}
