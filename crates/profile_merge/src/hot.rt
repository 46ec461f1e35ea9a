// The counts of a summary, the greatest first.
ghost use Rattle.std.specs.Prelude.{◌≡◌, ◌≤◌, ◌<◌, ◌*◌, ◌^◌, IfOk, IsPermutation, OnOk, length, sum};
ghost use Rattle.profile_model.specs.Summary.{at_least, greatest, least_hot};
ghost use Rattle.profile_merge.specs.Hot.{Descend, IsShare, count_told, counts_told};

use profile_text::{Item, What};
use refusal::NoMemory;
use std::alloc::{AllocError, Global};

/// A million: cutoffs are in millionths.
pub(crate) const MILLION: u64 = 1_000_000;

/// The counts above 0 of these numbers, the greatest first.
pub(crate) fn counts_of(alloc: Global, items: &[Item]) -> Result<Vec<u64>, NoMemory>
    ensures same { IfOk result (λ counts. IsPermutation (counts_told items.now) counts.items) }
    ensures down { IfOk result (λ counts. Descend counts.items) }
{
    let mut counts = counts_above(alloc, items)?;
    sort_down(&mut counts)?;
    Ok(counts)
}

/// The counts above 0 of these numbers, in their order.
fn counts_above(alloc: Global, items: &[Item]) -> Result<Vec<u64>, NoMemory>
    ensures { IfOk result (λ counts. counts.items ≡ counts_told items.now) }
{
    let mut counts = Vec::new(alloc);
    for item in items {
        let count = count_of(item);
        if count > 0 {
            counts.push(count)?;
        }
    }
    Ok(counts)
}

/// The count that a number tells: 0 where it is of a head or a target.
fn count_of(item: &Item) -> u64
    ensures { result ≡ count_told item.now }
{
    match item.what {
        What::Count(_) => item.times,
        What::Head(_) | What::Target(_, _) => 0,
    }
}

/// Puts counts into order, the greatest first.
fn sort_down(counts: &mut Vec<u64>) -> Result<(), AllocError>
    ensures same { OnOk result (IsPermutation counts.old.items counts.new.items) }
    ensures down { OnOk result (Descend counts.new.items) }
{
    counts.sort()?;
    counts.reverse();
    Ok(())
}

/// The sum of counts.
pub(crate) fn total_of(counts: &[u64]) -> u128
    ensures sum { result ≡ sum counts.now }
    ensures small { result < 2 ^ 127 }
{
    let mut total = 0;
    for count in counts {
        total += u128::from(*count);
    }
    total
}

/// The greatest count, and 0 where there is none.
pub(crate) fn max_of(counts: &[u64]) -> u64
    requires { Descend counts.now }
    ensures { result ≡ greatest counts.now }
{
    match counts.first() {
        Some(count) => *count,
        None => 0,
    }
}

/// The greatest count from which on counts make up `cutoff` millionths of their sum, and 0 where
/// there is no count.
pub(crate) fn least_hot(counts: &[u64], total: u128, cutoff: u64) -> u64
    requires down { Descend counts.now }
    requires total { total ≡ sum counts.now }
    requires small { total < 2 ^ 127 }
    requires cutoff { cutoff ≤ MILLION }
    ensures { result ≡ least_hot counts.now cutoff }
{
    let share = share_of(total, cutoff);
    let mut sum = 0;
    for count in counts {
        sum += u128::from(*count);
        if sum >= share {
            return *count;
        }
    }
    0
}

/// The least sum that makes up `cutoff` millionths of a total.
///
/// The total is taken apart, so that no product passes 128 bits.
fn share_of(total: u128, cutoff: u64) -> u128
    requires small { total < 2 ^ 127 }
    requires cutoff { cutoff ≤ MILLION }
    ensures { IsShare total cutoff result }
{
    let million = u128::from(MILLION);
    let cutoff = u128::from(cutoff);
    let rest = cutoff * (total % million);
    cutoff * (total / million) + (rest + million - 1) / million
}

/// How many counts are at least this one.
pub(crate) fn lines_from(counts: &[u64], least: u64) -> usize
    requires { Descend counts.now }
    ensures { result ≡ length (at_least least counts.now) }
{
    counts.partition_point(|count| *count >= least)
}
