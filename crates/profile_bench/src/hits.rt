// Ranges without a pattern, and segments that are asked for their hits.
ghost use Rattle.std.specs.Prelude.{◌≡◌, ◌≤◌, ◌<◌, ◌^◌, ℕ, IfOk};
ghost use Rattle.profile_model.specs.Hits.{AreRanges, times_of};
ghost use Rattle.profile_model.specs.Steps.{hits_by};

use range_counts::{Hits, RanRange, sweep};
use refusal::NoMemory;
use std::alloc::Global;

/// How many addresses a segment has.
pub(crate) const SEGMENT: u64 = 16;

/// The hits of so many ranges in a program of `segments` segments, each asked once, added up.
pub(crate) fn swept(alloc: Global, ranges: u32, segments: u32) -> Result<u64, NoMemory> {
    let hits = hits_of(alloc, ranges, segments)?;
    let mut walk = hits.walk();
    let mut sum = 0u64;
    for segment in 0..segments {
        let lo = u64::from(segment) * SEGMENT;
        sum = sum.wrapping_add(walk.max_in(lo, lo + SEGMENT));
    }
    Ok(sum)
}

/// The hits of so many ranges in a program of `segments` segments.
pub(crate) fn hits_of(alloc: Global, ranges: u32, segments: u32) -> Result<Hits, NoMemory>
    ensures { IfOk result (λ hits. (a : ℕ) → hits_by hits a < 2 ^ 32) }
{
    let ranges = ranges_of(alloc, ranges, segments)?;
    sweep(alloc, &ranges)
}

/// So many ranges.
fn ranges_of(alloc: Global, ranges: u32, segments: u32) -> Result<Vec<RanRange>, NoMemory>
    ensures ranges { IfOk result (λ made. AreRanges made.items) }
    ensures times { IfOk result (λ made. times_of made.items ≤ ranges) }
{
    let end = u64::from(segments) * SEGMENT + 1;
    let mut made = Vec::new(alloc);
    let mut seed = 1u64;
    for _ in 0..ranges {
        // Knuth's numbers without a pattern (MMIX).
        seed = seed
            .wrapping_mul(6_364_136_223_846_793_005)
            .wrapping_add(1_442_695_040_888_963_407);
        made.push(range_at((seed >> 24) % end, seed >> 57))?;
    }
    Ok(made)
}

/// A range that was sampled once, and has so many addresses behind its first one.
fn range_at(lo: u64, more: u64) -> RanRange
    ensures order { result.lo ≤ result.hi }
    ensures times { result.times ≡ 1 }
{
    RanRange {
        lo,
        hi: lo.saturating_add(more),
        times: 1,
    }
}
