ghost use Rattle.std.specs.Prelude.{◌≡◌};
ghost use Rattle.path_search.specs.Ways as ways;

use flow_network::Arc;
use reached_sides::Way;

/// A step over an arc, which is named by its place in the network.
#[derive(Clone, Copy, Debug, PartialEq, Eq)]
pub struct Step {
    pub arc: u32,
    pub way: Way,
}

/// Where a step over an arc starts.
pub(crate) fn start_of(way: Way, arc: &Arc) -> u32
    ensures { result ≡ ways.start_of way arc.now }
{
    match way {
        Way::Along => arc.tail,
        Way::Against => arc.head,
    }
}
