// The prices that the distances of a search move.
ghost use Rattle.std.specs.Prelude.{◌≡◌, ◌-◌, ℕ, ◌^◌, ◌<◌, ◌≤◌, length, pos, slice_set, true};
ghost use Rattle.path_search.specs.Ground.{AreSmall, price_at};
ghost use Rattle.path_search.specs.Search.{distance_at, is_settled, mark_at};
ghost use Rattle.path_search.specs.Ways.{AreSettled};
ghost use Rattle.residual_model.specs.Residual.{moved};
ghost use Rattle.flow_balance.specs.Level.{IsLevelled, put_at};

use reached_sides::{Mark, Marks};

/// Lowers the price of each side by what it is nearer than a limit, and puts it at the limit: by
/// the new prices all sides that are settled are as far as the one that the search has come to, so
/// that it can go on from there. Only settled sides are nearer, and the order lists them.
pub(crate) fn level(prices: &mut [i64], marks: &mut Marks, order: &[u32], limit: u64)
    requires marked { length marks.old ≡ length prices.old }
    requires settled { AreSettled marks.old order.now }
    requires behind { (side : ℕ) → is_settled (mark_at marks.old side) ≡ true
        → distance_at marks.old side ≤ limit }
    requires nearest { (side : ℕ) → distance_at marks.old side < limit
        → is_settled (mark_at marks.old side) ≡ true }
    requires small { AreSmall prices.old }
    requires near { limit < 2 ^ 62 }
    ensures each { length prices.new ≡ length prices.old }
    ensures moved { (side : ℕ) → price_at prices.new side
        ≡ moved (price_at prices.old) (distance_at marks.old) limit side }
    ensures levelled { IsLevelled marks.old limit marks.new }
{
    if is_level(marks, order, limit) {
        return;
    }
    for side in order {
        prices[*side as usize] -= put(marks, *side, limit);
    }
}

/// Whether the side that was settled first is at a limit, which no settled side is beyond: all of
/// them are then. Most searches go on so, and move nothing.
fn is_level(marks: &Marks, order: &[u32], limit: u64) -> bool
    requires settled { AreSettled marks.now order.now }
    requires behind { (side : ℕ) → is_settled (mark_at marks.now side) ≡ true
        → distance_at marks.now side ≤ limit }
    ensures { result ≡ true → (side : ℕ) → is_settled (mark_at marks.now side) ≡ true
        → distance_at marks.now side ≡ limit }
{
    match order.first() {
        Some(first) => is_at(marks, *first, limit),
        None => true,
    }
}

/// Whether a side is at a distance.
fn is_at(marks: &Marks, side: u32, distance: u64) -> bool
    requires { side < length marks.now }
    ensures { result ≡ true → distance_at marks.now side ≡ distance }
{
    match marks.get(side) {
        Some(mark) => mark.distance == distance,
        None => false,
    }
}

/// Puts a side at a distance, if it is marked. By how much it was nearer.
fn put(marks: &mut Marks, side: u32, distance: u64) -> i64
    requires inside { side < length marks.old }
    requires near { distance < 2 ^ 62 }
    ensures nearer { result ≡ pos (distance - distance_at marks.old side) }
    ensures marks { marks.new
        ≡ slice_set marks.old side (put_at distance (mark_at marks.old side)) }
{
    let Some(mark) = marks.get(side) else {
        return 0;
    };
    marks.set(side, Mark { distance, ..mark });
    distance.saturating_sub(mark.distance) as i64
}
