// The largest counts over the addresses of keys.
ghost use Rattle.std.specs.Prelude.{◌≡◌, ◌<◌, None, ℕ, IfOk, length, slice_index_or, slice_set};
ghost use Rattle.address_spans.specs.Spans.{AreDisjoint, owner_at};
ghost use Rattle.key_types.specs.Segments.{AreSegments, key_told};
ghost use Rattle.line_lift.specs.Held.{HaveKeys, IsCountIn, IsCountOfKey};
ghost use Rattle.line_lift.specs.Largest.{IsLargest, larger};

use address_spans::Span;
use key_types::{KeyId, Seg};
use refusal::NoMemory;
use std::alloc::Global;

/// For each of so many keys the largest count of its addresses, none where no span holds one.
///
/// Each span is owned by its count. Each segment takes a search, and then as long as there are
/// spans over it.
pub(crate) fn held_counts(
    alloc: Global,
    spans: &[Span],
    segments: &[Seg],
    keys: u32,
) -> Result<Vec<Option<u64>>, NoMemory>
    requires spans { AreDisjoint spans.now }
    requires segments { AreSegments segments.now }
    requires known { HaveKeys keys segments.now }
    ensures len { IfOk result (λ held. length held.items ≡ keys) }
    ensures largest { IfOk result (λ held. (key : ℕ) → key < keys →
        IsLargest (IsCountOfKey (key_told segments.now) (owner_at spans.now) key)
        (slice_index_or held.items key None)) }
{
    let mut held = vec![in alloc; None; keys as usize]?;
    for segment in segments {
        let largest = largest_over(spans, segment.lo, segment.hi);
        raise(&mut held, segment.key, largest);
    }
    Ok(held)
}

/// Gives a key this count if it is larger than the key's.
fn raise(held: &mut Vec<Option<u64>>, key: KeyId, count: Option<u64>)
    requires { key.0 < length held.old.items }
    ensures { held.new.items ≡ slice_set held.old.items key.0
        (larger (slice_index_or held.old.items key.0 None) count) }
{
    let at = key.0 as usize;
    held[at] = larger(held[at], count);
}

/// The largest count of the addresses from `lo` on and below `hi`.
fn largest_over(spans: &[Span], lo: u64, hi: u64) -> Option<u64>
    requires spans { AreDisjoint spans.now }
    requires filled { lo < hi }
    ensures { IsLargest (IsCountIn (owner_at spans.now) lo hi) result }
{
    let first = spans.partition_point(|span| span.hi <= lo);
    let mut largest = None;
    for span in &spans[first..] {
        if span.lo >= hi {
            return largest;
        }
        largest = larger(largest, Some(span.owner as u64));
    }
    largest
}

/// The larger of two counts.
fn larger(count: Option<u64>, other: Option<u64>) -> Option<u64>
    ensures { result ≡ larger count other }
{
    match (count, other) {
        (Some(count), Some(other)) => Some(count.max(other)),
        (Some(count), None) => Some(count),
        (None, other) => other,
    }
}
