// Counts of units of twice the size, in these units.
ghost use Rattle.std.specs.Prelude.{◌≡◌, ℕ, ◌+◌, ◌*◌, ◌^◌, ◌<◌, ◌≤◌, length, map};
ghost use Rattle.flow_model.specs.Network.{arcs_of};
ghost use Rattle.scaling_model.specs.Refining as model;
ghost use Rattle.path_search.specs.Ground.{AreSmall, count_at, price_at, sides_of};
ghost use Rattle.block_model.specs.Judging as judging;
ghost use Rattle.flow_balance.specs.Excess.{lack, surplus};
ghost use Rattle.flow_phases.specs.Refining.{AreSetRight, IsShifted};

use flow_balance::transfer;
use flow_network::{Arc, Net};

/// Doubles each count.
pub(crate) fn double(counts: &mut [u64])
    requires { (place : ℕ) → count_at counts.old place < 2 ^ 63 }
    ensures { counts.new ≡ map (λ n. 2 * n) counts.old }
{
    for count in counts {
        *count *= 2;
    }
}

/// Changes each count by at most one, so that it is within its bounds and the prices fit it, if it
/// is the double of one that was and did; and the excess with it.
pub(crate) fn set_all_right(net: &Net, counts: &mut [u64], prices: &[i64], excess: &mut [i64])
    requires begun { AreSetRight net.now counts.old prices.now counts.old excess.old 0 }
    requires priced { length prices.now ≡ sides_of net.now }
    requires small { AreSmall prices.now }
    ensures { AreSetRight net.now counts.old prices.now counts.new excess.new
        (length (arcs_of net.now)) }
{
    let arcs = net.arcs();
    for (place, arc) in arcs.iter().enumerate() {
        let count = counts[place];
        let right = set_right(arc, prices, count);
        counts[place] = right;
        shift(excess, arc.tail, arc.head, count, right);
    }
}

/// By how much the price rises on an arc.
fn rise_on(arc: &Arc, prices: &[i64]) -> i64
    requires starts { arc.now.tail < length prices.now }
    requires leads { arc.now.head < length prices.now }
    requires small { AreSmall prices.now }
    ensures { result ≡ model.rise_on (price_at prices.now) arc.now }
{
    prices[arc.head as usize] - prices[arc.tail as usize]
}

/// A count set right by at most one unit: it is raised where it is below the lower bound. It is
/// lowered where it is above the upper bound, and also above lower bound and weight where its last
/// unit costs more than the price rises.
fn set_right(arc: &Arc, prices: &[i64], count: u64) -> u64
    requires starts { arc.now.tail < length prices.now }
    requires leads { arc.now.head < length prices.now }
    requires small { AreSmall prices.now }
    ensures { result ≡ model.set_right (model.rise_on (price_at prices.now) arc.now)
        arc.now count }
{
    let rise = rise_on(arc, prices);
    if count < arc.lower {
        count + 1
    } else if exceeds(count, arc.upper) {
        count.saturating_sub(1)
    } else if arc.lower < count && arc.weight < count && i128::from(rise) < i128::from(arc.up) {
        count - 1
    } else {
        count
    }
}

/// Whether a count is above an upper bound, if there is one.
fn exceeds(count: u64, upper: Option<u64>) -> bool
    ensures { result ≡ judging.exceeds count upper }
{
    match upper {
        Some(upper) => upper < count,
        None => false,
    }
}

/// Changes the excess of an arc's sides as its count changes, which is by at most one.
fn shift(excess: &mut [i64], tail: u32, head: u32, old_count: u64, count: u64)
    requires starts { tail < length excess.old }
    requires leads { head < length excess.old }
    requires more { count ≤ old_count + 1 }
    requires less { old_count ≤ count + 1 }
    requires few { surplus excess.old < 2 ^ 62 }
    requires even { surplus excess.old ≡ lack excess.old }
    ensures { IsShifted excess.old tail head old_count count excess.new }
{
    if count < old_count {
        transfer(excess, head, tail, old_count - count);
    } else {
        transfer(excess, tail, head, count - old_count);
    }
}
