ghost use Rattle.std.specs.Prelude.{◌≡◌, ℕ, IfOk};
ghost use Rattle.address_spans.specs.Overlay.{held_in};
ghost use Rattle.address_spans.specs.Spans.{AreDisjoint, framed_owner, owner_at};

use crate::overlay::{overlay, push_between};
use crate::span::Span;
use refusal::NoMemory;
use std::alloc::Global;

/// The inner spans as far as they lie in the frames, and around them the frames.
///
/// # Errors
/// `NoMemory`.
pub fn framed(alloc: Global, frames: &[Span], inner: &[Span]) -> Result<Vec<Span>, NoMemory>
    requires frames { AreDisjoint frames.now }
    requires inner { AreDisjoint inner.now }
    ensures disjoint { IfOk result (λ made. AreDisjoint made.items) }
    ensures owners { IfOk result (λ made. (address : ℕ) → owner_at made.items address
        ≡ framed_owner (owner_at frames.now address) (owner_at inner.now address)) }
{
    let held = held(alloc, frames, inner)?;
    overlay(alloc, &held, frames)
}

/// What of the inner spans lies in the frames.
fn held(alloc: Global, frames: &[Span], inner: &[Span]) -> Result<Vec<Span>, NoMemory>
    requires frames { AreDisjoint frames.now }
    requires inner { AreDisjoint inner.now }
    ensures { IfOk result (λ made. made.items ≡ held_in frames.now inner.now) }
{
    let mut out = Vec::with_capacity(alloc, inner.len())?;
    let mut left = inner;
    for frame in frames {
        left = push_between(&mut out, left, frame.lo, frame.hi)?;
    }
    Ok(out)
}
