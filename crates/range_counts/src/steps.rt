ghost use Rattle.std.specs.Prelude.{◌≡◌, ℕ, ◌<◌, ◌≤◌, length, take};
ghost use Rattle.std.specs.List.{AllWithin};
ghost use Rattle.profile_model.specs.Hits.{IsLargestIn};
ghost use Rattle.profile_model.specs.Steps.{ground, hits_by, last_of};
ghost use Rattle.range_counts.specs.Steps.{Ascend, IsFirstAbove};

use profile_model::Step;

/// The hits behind the first `next` steps and before the others.
pub(crate) fn hits_behind(steps: &[Step], next: usize) -> u64
    requires { next ≤ length steps.now }
    ensures { result ≡ (last_of ground (take next steps.now)).hits }
{
    if next == 0 { 0 } else { steps[next - 1].hits }
}

/// The place of the first step above an address, found by binary search.
pub(crate) fn first_above(steps: &[Step], address: u64) -> usize
    requires { Ascend steps.now }
    ensures { IsFirstAbove steps.now result address }
{
    steps.partition_point(|step| step.at <= address)
}

/// The place of the first step above an address, sought from `next` on.
pub(crate) fn first_above_from(steps: &[Step], next: usize, address: u64) -> usize
    requires ascend { Ascend steps.now }
    requires within { next ≤ length steps.now }
    requires passed { AllWithin (λ step. step.at ≤ address) steps.now 0 next }
    ensures { IsFirstAbove steps.now result address }
{
    let mut above = next;
    while above < steps.len() && steps[above].at <= address {
        above += 1;
    }
    above
}

/// The largest hits from an address on that are below `hi`, where `next` is the place of the first
/// step above the address; and the place of the first step that is not below `hi`.
pub(crate) fn largest_from(steps: &[Step], next: usize, hi: u64) -> (u64, usize)
    requires ascend { Ascend steps.now }
    requires within { next ≤ length steps.now }
    ensures largest { (lo : ℕ) → lo < hi → IsFirstAbove steps.now next lo →
        IsLargestIn lo hi (hits_by steps.now) result.0 }
    ensures within { (next ≤ result.1) × (result.1 ≤ length steps.now) }
    ensures passed { AllWithin (λ step. step.at < hi) steps.now next result.1 }
{
    let mut largest = hits_behind(steps, next);
    let mut end = next;
    while end < steps.len() && steps[end].at < hi {
        largest = largest.max(steps[end].hits);
        end += 1;
    }
    (largest, end)
}
