ghost use Rattle.std.specs.Prelude.{◌≡◌};
ghost use Rattle.key_types.specs.Segments.{AreSegments, key_told};

use crate::ids::KeyId;
use crate::places::Seg;

/// The key of the segment that holds an address, found by binary search.
pub fn key_at(segments: &[Seg], address: u64) -> Option<KeyId>
    requires { AreSegments segments.now }
    ensures { result ≡ key_told segments.now address }
{
    let at = segments.partition_point(|segment| segment.hi <= address);
    match segments.get(at) {
        Some(segment) if segment.lo <= address => Some(segment.key),
        _ => None,
    }
}
