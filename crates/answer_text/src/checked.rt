// What `check` writes.
ghost use Rattle.std.specs.Prelude.{◌≡◌, IfOk};
ghost use Rattle.command_model.specs.Check.{checked_text as text_told};

use refusal::NoMemory;
use std::alloc::Global;
use text_scan::push_number;

/// What `check` writes where each of so many functions has a repair that keeps what it promises.
///
/// # Errors
/// `NoMemory`.
pub fn checked_text(alloc: Global, functions: usize) -> Result<Vec<u8>, NoMemory>
    ensures { IfOk result (λ out. out.items ≡ text_told functions) }
{
    let mut out = Vec::new(alloc);
    out.extend_from_slice(b"checked ")?;
    push_number(&mut out, functions as u128)?;
    out.push(b'\n')?;
    Ok(out)
}
