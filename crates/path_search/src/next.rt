// The nearest open side.
ghost use Rattle.std.specs.Prelude.{◌≡◌, ◌<◌, ◌↔◌, IfNone, IfSome, IsTrue, ℕ, false, length};
ghost use Rattle.path_search.specs.Search.{IsCurrent, IsNext, IsWaiting, is_open, mark_at};

use reached_sides::{Frontier, Marks};

/// Takes the nearest open side from the frontier, with its distance; `None` exactly where no side
/// is open. What else stands there before it is out of date, and is dropped.
pub(crate) fn next_open(marks: &Marks, frontier: &mut Frontier) -> Option<(u32, u64)>
    requires { IsWaiting marks.now frontier.old }
    ensures next { IfSome result (λ next. IsNext marks.now frontier.new next.0 next.1) }
    ensures none { IfNone result ((side : ℕ) → is_open (mark_at marks.now side) ≡ false) }
{
    while let Some((distance, side)) = frontier.pop() {
        if is_current(marks, side, distance) {
            return Some((side, distance));
        }
    }
    None
}

/// Whether a side is open at this distance.
fn is_current(marks: &Marks, side: u32, distance: u64) -> bool
    requires { side < length marks.now }
    ensures { IsTrue result ↔ IsCurrent marks.now side distance }
{
    match marks.get(side) {
        Some(mark) => mark.rank.is_none() && mark.distance == distance,
        None => false,
    }
}
