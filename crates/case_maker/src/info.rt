// The section `.debug_info`.
ghost use Rattle.std.specs.Prelude.{◌≡◌, ◌++◌, ◌<◌, ◌≤◌, ◌^◌, ◌+◌, ◌*◌, length, OnOk};
ghost use Rattle.case_model.specs.Info.{debug_info, front, function_entry, inlined_entry};

use crate::abbrev::{ABSTRACT, FUNCTION, INLINED, UNIT};
use crate::bytes::{push_u16, push_u32, push_u64};
use crate::function::{FUNCTION_SIZE, MAX_FUNCTIONS, address, name};
use refusal::NoMemory;

/// Where the entry of `g` stands, counted from the start of the unit.
const ABSTRACT_AT: u32 = 16;

/// How many bytes the section has for `n` functions.
#[tactic(auto, using(crate::proofs::Sizes::section_sizes))]
pub fn info_size(n: u64) -> u64
    requires { n ≤ MAX_FUNCTIONS }
    ensures is { result ≡ length (debug_info n) }
    ensures small { result < 2 ^ 20 }
{
    4 + u64::from(length_field(n))
}

/// How many of them stand behind the length field.
fn length_field(n: u64) -> u32
    requires { n ≤ MAX_FUNCTIONS }
    ensures { result ≡ 17 + 42 * n }
{
    17 + 42 * n as u32
}

/// Appends the section: one unit with `g` and `n` functions, into each of which `g` is inlined.
pub fn push_info(out: &mut Vec<u8>, n: u64) -> Result<(), NoMemory>
    requires { n ≤ MAX_FUNCTIONS }
    ensures { OnOk result (out.new.items ≡ out.old.items ++ debug_info n) }
{
    push_u32(out, length_field(n))?;
    push_front(out)?;
    for k in 0..n {
        push_function(out, k)?;
    }
    out.push(0)?;
    Ok(())
}

/// Appends what stands between the length field and the functions: version 4, the abbreviations at
/// 0, addresses of 8 bytes; the unit, with its line program at 0; and g, declared in line 5.
#[tactic(auto, unfolding(case_model::specs::Info::front))]
fn push_front(out: &mut Vec<u8>) -> Result<(), NoMemory>
    ensures { OnOk result (out.new.items ≡ out.old.items ++ front) }
{
    push_u16(out, 4)?;
    push_u32(out, 0)?;
    out.extend_from_slice(&[8, UNIT])?;
    push_u32(out, 0)?;
    out.extend_from_slice(&[ABSTRACT, b'g', 0, 5])?;
    Ok(())
}

/// Appends function `k`, declared in line 10, with the call below it.
#[tactic(auto, unfolding(case_model::specs::Info::function_entry))]
fn push_function(out: &mut Vec<u8>, k: u64) -> Result<(), NoMemory>
    requires { k < MAX_FUNCTIONS }
    ensures { OnOk result (out.new.items ≡ out.old.items ++ function_entry k) }
{
    out.push(FUNCTION)?;
    out.extend_from_slice(&name(k))?;
    out.push(0)?;
    push_u16(out, 10)?;
    push_u64(out, address(k))?;
    push_u32(out, FUNCTION_SIZE as u32)?;
    push_inlined(out, k)?;
    out.push(0)?;
    Ok(())
}

/// Appends the call of `g` in function `k`: 16 bytes from 16 on, in line 12 with discriminator 1.
fn push_inlined(out: &mut Vec<u8>, k: u64) -> Result<(), NoMemory>
    requires { k < MAX_FUNCTIONS }
    ensures { OnOk result (out.new.items ≡ out.old.items ++ inlined_entry k) }
{
    out.push(INLINED)?;
    push_u32(out, ABSTRACT_AT)?;
    push_u64(out, address(k) + 0x10)?;
    push_u32(out, 0x10)?;
    push_u16(out, 12)?;
    out.push(1)?;
    Ok(())
}
