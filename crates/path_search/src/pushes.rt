// What is pushed along a way.
ghost use Rattle.std.specs.Prelude.{◌≡◌};
ghost use Rattle.std.specs.List.{All};
ghost use Rattle.path_search.specs.Path.{AreApart, IsPushable, push_once, pushed};

use crate::step::Step;
use reached_sides::Way;

/// Pushes an amount over each step of a way: along an arc its count rises, against it it falls.
pub fn push(counts: &mut [u64], path: &[Step], amount: u64)
    requires pushable { All (IsPushable counts.old amount) path.now }
    requires apart { AreApart path.now }
    ensures { counts.new ≡ pushed amount path.now counts.old }
{
    for step in path {
        push_step(counts, *step, amount);
    }
}

/// Pushes an amount over one step.
fn push_step(counts: &mut [u64], step: Step, amount: u64)
    requires { IsPushable counts.old amount step }
    ensures { counts.new ≡ push_once amount step counts.old }
{
    let at = step.arc as usize;
    match step.way {
        Way::Along => counts[at] += amount,
        Way::Against => counts[at] -= amount,
    }
}
