ghost use Rattle.std.specs.Prelude.{◌≡◌};
ghost use Rattle.chain_model.specs.Places as places;

use key_types::split;

/// A line counted from a first one, modulo 65,536.
pub fn line_offset(first: u64, line: u64) -> u16
    ensures { result ≡ places.line_offset first line }
{
    ((line % 65_536 + (65_536 - first % 65_536)) % 65_536) as u16
}

/// A discriminator as a key has it: its base where that is asked, else as it stands.
#[tactic(auto, unfolding(key_types::specs::Discriminators::split))]
pub fn kept(base: bool, disc: u32) -> u32
    ensures { result ≡ places.kept base disc }
{
    if base { split(disc).0 } else { disc }
}
