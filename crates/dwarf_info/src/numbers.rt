// Numbers in fewer bits.
ghost use Rattle.std.specs.Prelude.{◌≡◌, IfOk};

use refusal::NoMemory;

/// The largest number of 32 bits.
const MAX_32: u64 = (1 << 32) - 1;

/// The largest number of 16 bits.
const MAX_16: u64 = (1 << 16) - 1;

/// A number in 32 bits, or `NoMemory` where it has more.
pub(crate) fn in_32(number: u64) -> Result<u32, NoMemory>
    ensures { IfOk result (λ same. same ≡ number) }
{
    if number > MAX_32 {
        return Err(NoMemory);
    }
    Ok(number as u32)
}

/// A number in 16 bits, or `NoMemory` where it has more.
pub(crate) fn in_16(number: u64) -> Result<u16, NoMemory>
    ensures { IfOk result (λ same. same ≡ number) }
{
    if number > MAX_16 {
        return Err(NoMemory);
    }
    Ok(number as u16)
}
