// What a step costs.
ghost use Rattle.std.specs.Prelude.{◌≡◌, ◌<◌, ◌↔◌, ◌^◌, ◌+ℤ◌, ◌≤ℤ◌, pos, IsTrue, length};
ghost use Rattle.flow_model.specs.Prices.{FitsOn};
ghost use Rattle.flow_network.specs.Cost.{IsCheap};
ghost use Rattle.path_search.specs.Ground.{AreSmall, IsSmallCost, price_at};
ghost use Rattle.path_search.specs.Tight.{IsTightAlong};
ghost use Rattle.residual_model.specs.Residual as model;

use flow_network::{Arc, is_below};

/// What one unit more costs on an arc.
pub(crate) fn cost_of_more(arc: &Arc, count: u64) -> i64
    requires { IsCheap arc.now }
    ensures value { result ≡ model.cost_of_more arc.now count }
    ensures small { IsSmallCost result }
{
    if count >= arc.weight {
        arc.up as i64
    } else {
        -(arc.down as i64)
    }
}

/// What one unit less costs on an arc.
pub(crate) fn cost_of_less(arc: &Arc, count: u64) -> i64
    requires cheap { IsCheap arc.now }
    requires some { 0 < count }
    ensures value { result ≡ model.cost_of_less arc.now count }
    ensures small { IsSmallCost result }
{
    if count <= arc.weight {
        arc.down as i64
    } else {
        -(arc.up as i64)
    }
}

/// What a step costs beyond what the price rises on it, where that is not below 0.
pub(crate) fn reduced(prices: &[i64], from: u32, to: u32, cost: i64) -> u64
    requires starts { from < length prices.now }
    requires leads { to < length prices.now }
    requires small { AreSmall prices.now }
    requires cheap { IsSmallCost cost }
    requires fits { pos 0 ≤ℤ model.reduced (price_at prices.now) from to cost }
    ensures value { pos result ≡ model.reduced (price_at prices.now) from to cost }
    ensures small { result < 2 ^ 33 }
{
    let rise = prices[to as usize] - prices[from as usize];
    (cost - rise) as u64
}

/// Whether one unit more may pass on an arc and costs just what the price rises there.
pub fn is_tight_along(arc: &Arc, count: u64, prices: &[i64]) -> bool
    requires cheap { IsCheap arc.now }
    requires starts { arc.now.tail < length prices.now }
    requires leads { arc.now.head < length prices.now }
    requires small { AreSmall prices.now }
    requires fits { FitsOn (price_at prices.now) arc.now count }
    ensures { IsTrue result ↔ IsTightAlong prices.now arc.now count }
{
    if !is_below(arc.upper, count) {
        return false;
    }
    reduced(prices, arc.tail, arc.head, cost_of_more(arc, count)) == 0
}
