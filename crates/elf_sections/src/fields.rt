ghost use Rattle.std.specs.Prelude.{◌≡◌, ◌+◌, ◌<◌, ◌≤◌, ◌^◌, length};
ghost use Rattle.elf_model.specs.Fields.{number_at, passes_end};

use byteorder::{ByteOrder, LittleEndian};

/// Whether `size` bytes from an offset on pass the end of the file.
pub(crate) fn passes_end(file: &[u8], at: u64, size: u128) -> bool
    requires { size < 2 ^ 80 }
    ensures { result ≡ passes_end file.now at size }
{
    u128::from(at) + size > file.len() as u128
}

/// The number in the two bytes at an offset.
#[tactic(auto, unfolding(elf_model::specs::Fields::number_at))]
pub(crate) fn u16_at(file: &[u8], at: usize) -> u16
    requires { at + 2 ≤ length file.now }
    ensures { result ≡ number_at file.now at 2 }
{
    LittleEndian::read_u16(&file[at..])
}

/// The number in the four bytes at an offset.
#[tactic(auto, unfolding(elf_model::specs::Fields::number_at))]
pub(crate) fn u32_at(file: &[u8], at: usize) -> u32
    requires { at + 4 ≤ length file.now }
    ensures { result ≡ number_at file.now at 4 }
{
    LittleEndian::read_u32(&file[at..])
}

/// The number in the eight bytes at an offset.
#[tactic(auto, unfolding(elf_model::specs::Fields::number_at))]
pub(crate) fn u64_at(file: &[u8], at: usize) -> u64
    requires { at + 8 ≤ length file.now }
    ensures { result ≡ number_at file.now at 8 }
{
    LittleEndian::read_u64(&file[at..])
}
