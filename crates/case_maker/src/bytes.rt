// Numbers as they stand in a binary: the lowest byte first.
ghost use Rattle.std.specs.Prelude.{◌≡◌, ◌++◌, OnOk};
ghost use Rattle.case_model.specs.Bytes.{u16_bytes, u32_bytes, u64_bytes};

use refusal::NoMemory;

/// Appends a number of 2 bytes.
#[tactic(auto, unfolding(case_model::specs::Bytes::u16_bytes))]
pub fn push_u16(out: &mut Vec<u8>, n: u16) -> Result<(), NoMemory>
    ensures { OnOk result (out.new.items ≡ out.old.items ++ u16_bytes n) }
{
    out.extend_from_slice(&n.to_le_bytes())?;
    Ok(())
}

/// Appends a number of 4 bytes.
#[tactic(auto, unfolding(case_model::specs::Bytes::u32_bytes))]
pub fn push_u32(out: &mut Vec<u8>, n: u32) -> Result<(), NoMemory>
    ensures { OnOk result (out.new.items ≡ out.old.items ++ u32_bytes n) }
{
    out.extend_from_slice(&n.to_le_bytes())?;
    Ok(())
}

/// Appends a number of 8 bytes.
#[tactic(auto, unfolding(case_model::specs::Bytes::u64_bytes))]
pub fn push_u64(out: &mut Vec<u8>, n: u64) -> Result<(), NoMemory>
    ensures { OnOk result (out.new.items ≡ out.old.items ++ u64_bytes n) }
{
    out.extend_from_slice(&n.to_le_bytes())?;
    Ok(())
}
