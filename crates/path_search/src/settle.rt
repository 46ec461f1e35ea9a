// The start of a search, and the side that is settled next.
ghost use Rattle.std.specs.Prelude.{◌≡◌, ◌<◌, [], None, Some, length, replicate, slice_set};
ghost use Rattle.path_search.specs.Search.{mark_at, settled_as};

use reached_sides::{Frontier, Mark, Marks, Way};

/// Forgets all sides but the source, which is open at the distance 0 and stands on no frontier.
pub(crate) fn begin(marks: &mut Marks, frontier: &mut Frontier, source: u32)
    requires { source < length marks.old }
    ensures marks { marks.new ≡ slice_set (replicate (length marks.old) None) source
        (Some (record { distance = 0; arc = 0; way = Way.Along; rank = None })) }
    ensures frontier { frontier.new ≡ [] }
{
    marks.clear();
    frontier.clear();
    let first = Mark {
        distance: 0,
        arc: 0,
        way: Way::Along,
        rank: None,
    };
    marks.set(source, first);
}

/// Settles a side that is marked, as one that so many were settled before.
pub(crate) fn settle(marks: &mut Marks, side: u32, rank: u32)
    requires { side < length marks.old }
    ensures { marks.new ≡ slice_set marks.old side (settled_as rank (mark_at marks.old side)) }
{
    if let Some(mark) = marks.get(side) {
        let rank = Some(rank);
        marks.set(side, Mark { rank, ..mark });
    }
}
