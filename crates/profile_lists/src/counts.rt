// Counts, one for each key.
ghost use Rattle.std.specs.Prelude.{◌≡◌, ◌^◌, ◌<◌, length, max, slice_index, slice_set, All, IfOk, ℕ};
ghost use Rattle.profile_model.specs.Steps.{hits_by};
ghost use Rattle.key_types.specs.Segments.{AreSegments};
ghost use Rattle.profile_lists.specs.Segments.{AllFit, AreCounts};

use key_types::Seg;
use range_counts::Hits;
use refusal::NoMemory;
use std::alloc::Global;

/// The count of each of `keys` keys: the largest hits times factor of the addresses of its
/// segments, and 0 for a key without a segment. Each is below 2^44.
///
/// Segments are disjoint, ascending and not empty. Factors are below 4,096 and hits below 2^32.
///
/// # Errors
/// `NoMemory`.
// Why: Counts of keys go by key number, 0 behind the end, so that weights need no tree and a merge
// no list of keys.
pub fn counts_of(
    alloc: Global,
    segments: &[Seg],
    hits: &Hits,
    keys: u32,
) -> Result<Vec<u64>, NoMemory>
    requires segments { AreSegments segments.now }
    requires fit { AllFit keys segments.now }
    requires hits { (a : ℕ) → hits_by hits.now a < 2 ^ 32 }
    ensures counts { IfOk result (λ counts.
        AreCounts segments.now (hits_by hits.now) counts.items) }
    ensures len { IfOk result (λ counts. length counts.items ≡ keys) }
    ensures small { IfOk result (λ counts. All (λ count. count < 2 ^ 44) counts.items) }
{
    let mut counts = vec![in alloc; 0; keys as usize]?;
    let mut walk = hits.walk();
    for segment in segments {
        let largest = walk.max_in(segment.lo, segment.hi);
        raise(&mut counts, segment, largest * segment.factor);
    }
    Ok(counts)
}

/// Raises the count of a segment's key to what the segment has.
fn raise(counts: &mut Vec<u64>, segment: &Seg, weighed: u64)
    requires { segment.now.key.0 < length counts.old.items }
    ensures { counts.new.items ≡ slice_set counts.old.items segment.now.key.0
        (max (slice_index counts.old.items segment.now.key.0) weighed) }
{
    let key = segment.key.0 as usize;
    counts[key] = counts[key].max(weighed);
}
