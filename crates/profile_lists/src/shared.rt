// What two ways have in common.
ghost use Rattle.std.specs.Prelude.{◌≡◌, ◌≤◌, length};
ghost use Rattle.profile_lists.specs.Rows.{same_step, shared};

use crate::item::Step;

/// How many steps two ways have in common at their fronts.
pub fn shared(way: &[Step], other: &[Step]) -> usize
    ensures count { result ≡ shared same_step way.now other.now }
    ensures within { result ≤ length other.now }
{
    let mut n = 0;
    while n < way.len() && n < other.len() && same(&way[n], &other[n]) {
        n += 1;
    }
    n
}

/// Whether two steps are the same.
fn same(step: &Step, other: &Step) -> bool
    ensures { result ≡ same_step step.now other.now }
{
    step.cmp(other).is_eq()
}
