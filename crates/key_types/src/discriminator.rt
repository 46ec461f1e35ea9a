// Split discriminators.
ghost use Rattle.std.specs.Prelude.{◌≡◌};
ghost use Rattle.key_types.specs.Discriminators.{component, rest, split};

/// The base and the duplication factor that a discriminator packs. The factor is at least 1.
///
/// Source: LLVM, DILocation.h, `getBaseDiscriminatorFromDiscriminator` and
/// `getDuplicationFactorFromDiscriminator`.
#[tactic(auto, unfolding(crate::specs::Discriminators::split))]
pub fn split(disc: u32) -> (u32, u32)
    ensures { result ≡ split disc }
{
    let (base, behind) = component(disc);
    let (factor, _) = component(behind);
    (base, if factor == 0 { 1 } else { factor })
}

/// The number that a discriminator begins with, and what stands behind it.
fn component(disc: u32) -> (u32, u32)
    ensures { result ≡ (component disc, rest disc) }
{
    let low = disc >> 1 & 0x1f;
    if disc & 1 == 1 {
        (0, disc >> 1)
    } else if disc >> 6 & 1 == 1 {
        ((disc >> 7 & 0x7f) * 32 + low, disc >> 14)
    } else {
        (low, disc >> 7)
    }
}
