// How hot the hot lines of a profile are.
ghost use Rattle.std.specs.Prelude.{◌≡◌, ◌++◌, ◌≤◌, ◌<◌, ◌^◌, ℕ, List, OnErr, OnOk, length, sum};
ghost use Rattle.std.specs.Io.{StartsWith};
ghost use Rattle.std.specs.List.{AllByRecursion, flat_map};
ghost use Rattle.profile_model.specs.Summary.{cutoff_text, cutoffs, summary_by, summary_text, told_number};
ghost use Rattle.profile_text.specs.Draft.{IsGivenItem};
ghost use Rattle.profile_text.specs.Numbers.{counted};
ghost use Rattle.profile_merge.specs.Functions.{HaveKeys};
ghost use Rattle.profile_merge.specs.Hot.{Descend};
ghost use Rattle.profile_merge.specs.Laws.{AreNumbered};

use crate::functions::functions_of;
use crate::hot::{MILLION, counts_of, least_hot, lines_from, max_of, total_of};
use key_types::Keys;
use profile_text::Profile;
use refusal::NoMemory;
use std::alloc::Global;
use text_scan::push_number;

/// The cutoffs of LLVM, in millionths.
///
/// Source: LLVM, ProfileSummaryBuilder.cpp, `DefaultCutoffs`.
const CUTOFFS: [u64; 16] = [
    10_000, 100_000, 200_000, 300_000, 400_000, 500_000, 600_000, 700_000, 800_000, 900_000,
    950_000, 990_000, 999_000, 999_900, 999_990, 999_999,
];

/// Appends the summary of a profile whose keys are of `keys`: how many functions would be written
/// of it, how many lines have a count above 0, their sum and the greatest of them, and for each
/// cutoff the least count of the hottest lines that make up so many millionths of the sum, with how
/// many lines have at least that.
///
/// # Errors
/// `NoMemory`, and `out` may have grown: what it held stands at its front.
///
/// Source: LLVM, ProfileCommon.h, "detailed summary".
pub fn summary(
    alloc: Global,
    part: &Profile,
    keys: &Keys,
    out: &mut Vec<u8>,
) -> Result<(), NoMemory>
    requires { HaveKeys (length keys.now) part.now.items }
    ensures appended { OnOk result ((names : List (List ℕ)) → AreNumbered names keys.now
        → AllByRecursion (IsGivenItem (length names) (length keys.now)) part.now.items
        → out.new.items
        ≡ out.old.items ++ summary_text (counted names keys.now part.now.items)) }
    ensures grows { OnErr result (StartsWith out.new.items out.old.items) }
{
    let items = part.items.as_slice();
    let functions = functions_of(alloc, items, keys)?;
    let counts = counts_of(alloc, items)?;
    push_summary(out, functions, &counts)
}

/// Appends the summary of counts, the greatest first, with how many functions there are.
#[tactic(auto, using(text_scan::proofs::Growth::still_in_front), unfolding(profile_model::specs::Summary::summary_by))]
fn push_summary(out: &mut Vec<u8>, functions: usize, counts: &[u64]) -> Result<(), NoMemory>
    requires { Descend counts.now }
    ensures appended { OnOk result (out.new.items
        ≡ out.old.items ++ summary_by functions counts.now) }
    ensures grows { OnErr result (StartsWith out.new.items out.old.items) }
{
    let total = total_of(counts);
    push_told(out, b"functions", functions as u128)?;
    push_told(out, b"lines", counts.len() as u128)?;
    push_told(out, b"total", total)?;
    push_told(out, b"max", u128::from(max_of(counts)))?;
    push_cutoffs(out, counts, total)
}

/// Appends a word and a number on a line.
#[tactic(auto, using(text_scan::proofs::Growth::still_in_front))]
fn push_told(out: &mut Vec<u8>, word: &[u8], number: u128) -> Result<(), NoMemory>
    ensures appended { OnOk result (out.new.items
        ≡ out.old.items ++ told_number word.now number) }
    ensures grows { OnErr result (StartsWith out.new.items out.old.items) }
{
    out.extend_from_slice(word)?;
    out.push(b' ')?;
    push_number(out, number)?;
    out.push(b'\n')?;
    Ok(())
}

/// Appends the lines of all cutoffs.
#[tactic(auto, using(text_scan::proofs::Growth::still_in_front))]
fn push_cutoffs(out: &mut Vec<u8>, counts: &[u64], total: u128) -> Result<(), NoMemory>
    requires down { Descend counts.now }
    requires total { total ≡ sum counts.now }
    requires small { total < 2 ^ 127 }
    ensures appended { OnOk result (out.new.items
        ≡ out.old.items ++ flat_map (cutoff_text counts.now) cutoffs) }
    ensures grows { OnErr result (StartsWith out.new.items out.old.items) }
{
    for cutoff in &CUTOFFS {
        push_cutoff(out, counts, total, *cutoff)?;
    }
    Ok(())
}

/// Appends the line of a cutoff.
#[tactic(auto, using(text_scan::proofs::Growth::still_in_front))]
fn push_cutoff(out: &mut Vec<u8>, counts: &[u64], total: u128, cutoff: u64) -> Result<(), NoMemory>
    requires down { Descend counts.now }
    requires total { total ≡ sum counts.now }
    requires small { total < 2 ^ 127 }
    requires cutoff { cutoff ≤ MILLION }
    ensures appended { OnOk result (out.new.items
        ≡ out.old.items ++ cutoff_text counts.now cutoff) }
    ensures grows { OnErr result (StartsWith out.new.items out.old.items) }
{
    let least = least_hot(counts, total, cutoff);
    out.extend_from_slice(b"cutoff ")?;
    push_number(out, u128::from(cutoff))?;
    out.extend_from_slice(b" least ")?;
    push_number(out, u128::from(least))?;
    out.extend_from_slice(b" lines ")?;
    push_number(out, lines_from(counts, least) as u128)?;
    out.push(b'\n')?;
    Ok(())
}
