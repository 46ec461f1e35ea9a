// A way to a side, taken where it is nearer than what is known.
ghost use Rattle.std.specs.Prelude.{◌≡◌, ◌<◌, length, OnOk};
ghost use Rattle.path_search.specs.Search.{Offers};

use reached_sides::{Frontier, Mark, Marks, Way};
use refusal::NoMemory;

/// Marks a side as reached over an arc at a distance, where no way as near is known.
// Why: A step to a node that is marked as near already is not looked at.
pub(crate) fn offer(
    marks: &mut Marks,
    frontier: &mut Frontier,
    side: u32,
    distance: u64,
    arc: u32,
    way: Way,
) -> Result<(), NoMemory>
    requires { side < length marks.old }
    ensures { OnOk result
        (Offers side (record { distance = distance; arc = arc; way = way; rank = None })
        marks.old frontier.old marks.new frontier.new) }
{
    if let Some(known) = marks.get(side) {
        if known.distance <= distance {
            return Ok(());
        }
    }
    let rank = None;
    marks.set(
        side,
        Mark {
            distance,
            arc,
            way,
            rank,
        },
    );
    frontier.push(distance, side)?;
    Ok(())
}
