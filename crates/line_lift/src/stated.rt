// The numbers of a profile, with repaired counts.
ghost use Rattle.std.specs.Prelude.{◌≡◌, ◌≤◌, ◌^◌, length};
ghost use Rattle.line_lift.specs.Stated.{AreWithHeld};

use key_types::KeyId;
use profile_tree::Numbers;

/// Gives each key that is held its count.
pub(crate) fn hold(numbers: &mut Numbers, held: &[Option<u64>])
    requires few { length held.now ≤ 2 ^ 32 }
    requires len { length held.now ≡ length numbers.old.counts }
    ensures { AreWithHeld held.now numbers.old numbers.new }
{
    for (id, count) in held.iter().enumerate() {
        let read = numbers.counts()[id];
        numbers.set_count(KeyId(id as u32), count.unwrap_or(read));
    }
}
