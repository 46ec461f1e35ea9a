// The way back from a side that a search has come to.
ghost use Rattle.std.specs.Prelude.{◌≡◌, ◌<◌, length, OnOk, Some};
ghost use Rattle.path_search.specs.Search.{mark_at};
ghost use Rattle.path_search.specs.Trace.{IsTraceable, IsTraced, TellsStep};

use crate::step::{Step, start_of};
use flow_network::Net;
use reached_sides::{Marks, Way};
use refusal::NoMemory;

/// Lists the steps of the way from a source to a side at which a search has ended, the last step
/// first.
///
/// By the prices that the distances of the search move, each step costs nothing.
pub fn trace(
    net: &Net,
    marks: &Marks,
    source: u32,
    side: u32,
    path: &mut Vec<Step>,
) -> Result<(), NoMemory>
    requires { IsTraceable net.now source marks.now side }
    ensures { OnOk result (IsTraced net.now source marks.now side path.new.items) }
{
    path.clear();
    let arcs = net.arcs();
    let mut current = side;
    while current != source {
        let step = step_to(marks, current);
        path.push(step)?;
        current = start_of(step.way, &arcs[step.arc as usize]);
    }
    Ok(())
}

/// The last step of the way to a side that is marked.
fn step_to(marks: &Marks, side: u32) -> Step
    requires { side < length marks.now }
    ensures { TellsStep (mark_at marks.now side) result }
{
    match marks.get(side) {
        Some(mark) => Step {
            arc: mark.arc,
            way: mark.way,
        },
        None => Step {
            arc: 0,
            way: Way::Along,
        },
    }
}
