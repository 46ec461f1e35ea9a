// Whether prices fit a count on an arc.
ghost use Rattle.std.specs.Prelude.{◌≡◌, ◌+◌, ◌-◌, ◌<◌, ◌↔◌, pos, ◌-ℤ◌, ◌≤ℤ◌, IsTrue};
ghost use Rattle.flow_model.specs.Circulation.{IsAtMost, IsWithin, cost_on};
ghost use Rattle.flow_model.specs.Prices.{FitsOn, IsBelow};
ghost use Rattle.flow_network.specs.Flow.{price_of};

use flow_network::{Arc, Prices, is_below};

/// Whether the way along the arc raises the price by at most what one unit more costs there, where
/// one more may pass, and lowers it by at most what one unit less costs, where one less may pass.
pub(crate) fn fits(prices: &Prices, arc: &Arc, count: u64) -> bool
    ensures { IsTrue result ↔ FitsOn (price_of prices.now) arc.now count }
{
    let head = i128::from(prices.at(arc.head));
    let tail = i128::from(prices.at(arc.tail));
    fits_more(arc, count, head - tail) && fits_less(arc, count, tail - head)
}

/// Whether the price rises by at most what one unit more costs, if one more may pass.
fn fits_more(arc: &Arc, count: u64, rise: i128) -> bool
    ensures { IsTrue result ↔ (IsBelow arc.now.upper count
        → rise ≤ℤ (pos (cost_on arc.now (count + 1)) -ℤ pos (cost_on arc.now count))) }
{
    !is_below(arc.upper, count) || rise <= cost_of_more(arc, count)
}

/// Whether the price falls by at most what one unit less costs, if one less may pass.
fn fits_less(arc: &Arc, count: u64, fall: i128) -> bool
    ensures { IsTrue result ↔ (arc.now.lower < count
        → fall ≤ℤ (pos (cost_on arc.now (count - 1)) -ℤ pos (cost_on arc.now count))) }
{
    count <= arc.lower || fall <= cost_of_less(arc, count)
}

/// What one unit more costs.
fn cost_of_more(arc: &Arc, count: u64) -> i128
    ensures { result ≡ pos (cost_on arc.now (count + 1)) -ℤ pos (cost_on arc.now count) }
{
    if count >= arc.weight {
        i128::from(arc.up)
    } else {
        -i128::from(arc.down)
    }
}

/// What one unit less costs.
fn cost_of_less(arc: &Arc, count: u64) -> i128
    requires { 0 < count }
    ensures { result ≡ pos (cost_on arc.now (count - 1)) -ℤ pos (cost_on arc.now count) }
{
    if count <= arc.weight {
        i128::from(arc.down)
    } else {
        -i128::from(arc.up)
    }
}

/// Whether a count is within the arc's bounds.
pub(crate) fn is_within(arc: &Arc, count: u64) -> bool
    ensures { IsTrue result ↔ IsWithin arc.now count }
{
    arc.lower <= count && is_at_most(arc.upper, count)
}

/// Whether a count is at most an upper bound, or there is none.
fn is_at_most(upper: Option<u64>, count: u64) -> bool
    ensures { IsTrue result ↔ IsAtMost upper count }
{
    match upper {
        Some(upper) => count <= upper,
        None => true,
    }
}
