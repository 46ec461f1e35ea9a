// The branch text.
ghost use Rattle.std.specs.Prelude.{◌≡◌, ◌++◌, ◌<◌, ◌≤◌, ◌^◌, codes, OnOk, IfOk};
ghost use Rattle.case_model.specs.Samples.{branch, branch_text, often_sample, once_sample, samples_of};

use crate::function::{MAX_FUNCTIONS, address, caller, weight};
use refusal::NoMemory;
use std::alloc::Global;
use text_scan::push_hex;

/// Appends the branch text of `n` functions.
#[tactic(auto, unfolding(case_model::specs::Samples::branch_text))]
pub fn push_samples(out: &mut Vec<u8>, n: u64) -> Result<(), NoMemory>
    requires { n ≤ MAX_FUNCTIONS }
    ensures { OnOk result (out.new.items ≡ out.old.items ++ branch_text n) }
{
    for k in 0..n {
        push_function(out, n, k)?;
    }
    Ok(())
}

/// Appends the samples of function `k`.
#[tactic(auto, unfolding(case_model::specs::Samples::samples_of))]
fn push_function(out: &mut Vec<u8>, n: u64, k: u64) -> Result<(), NoMemory>
    requires within { k < n }
    requires few { n ≤ MAX_FUNCTIONS }
    ensures { OnOk result (out.new.items ≡ out.old.items ++ samples_of n k) }
{
    let alloc = *out.allocator();
    let here = address(k);
    let there = address(caller(n, k));
    let often = prefixed_often(alloc, here, there)?;
    for time in 0..weight(k) {
        out.extend_from_slice(&often[2..])?;
    }
    let once = prefixed_once(alloc, here, there)?;
    out.extend_from_slice(&once[2..])?;
    Ok(())
}

/// The sample of the one way through the function at `here`, called from the one at `there`; with
/// the `0x` in front that its first number has not.
#[tactic(auto, unfolding(case_model::specs::Samples::often_sample))]
fn prefixed_often(alloc: Global, here: u64, there: u64) -> Result<Vec<u8>, NoMemory>
    requires here { here < 2 ^ 32 }
    requires there { there < 2 ^ 32 }
    ensures { IfOk result (λ line. line.items ≡ codes "0x" ++ often_sample here there) }
{
    let mut line = Vec::new(alloc);
    push_hex(&mut line, there + 0x36)?;
    push_branch(&mut line, here + 0x38, there + 0x36)?;
    push_branch(&mut line, here + 0xc, here + 0x20)?;
    push_branch(&mut line, there + 0x34, here)?;
    line.push(b'\n')?;
    Ok(line)
}

/// The sample of the other way, likewise.
#[tactic(auto, unfolding(case_model::specs::Samples::once_sample))]
fn prefixed_once(alloc: Global, here: u64, there: u64) -> Result<Vec<u8>, NoMemory>
    requires here { here < 2 ^ 32 }
    requires there { there < 2 ^ 32 }
    ensures { IfOk result (λ line. line.items ≡ codes "0x" ++ once_sample here there) }
{
    let mut line = Vec::new(alloc);
    push_hex(&mut line, there + 0x36)?;
    push_branch(&mut line, here + 0x38, there + 0x36)?;
    push_branch(&mut line, here + 0x4, here + 0x10)?;
    line.push(b'\n')?;
    Ok(line)
}

/// Appends a taken branch behind a space.
#[tactic(auto, unfolding(case_model::specs::Samples::branch))]
fn push_branch(out: &mut Vec<u8>, from: u64, to: u64) -> Result<(), NoMemory>
    ensures { OnOk result (out.new.items ≡ out.old.items ++ branch (from, to)) }
{
    out.push(b' ')?;
    push_hex(out, from)?;
    out.push(b'/')?;
    push_hex(out, to)?;
    out.extend_from_slice(b"/P/-/-/1")?;
    Ok(())
}
