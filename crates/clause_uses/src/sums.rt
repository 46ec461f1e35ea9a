// What a refusal leaves of sums.
ghost use Rattle.std.specs.Prelude.{OnErr};
ghost use Rattle.profile_merge.specs.Sums.{AreSameSums, TellOnce};

use profile_merge::{MergeStop, Sums};
use profile_text::Profile;

/// Sums to which a profile was not added are what they were.
pub fn a_refused_sum_stays(sums: &mut Sums, part: &Profile, weight: u64) -> Result<(), MergeStop>
    requires { TellOnce part.now.items }
    ensures { OnErr result (AreSameSums sums.old sums.new) }
{
    sums.add(part, weight)
}
