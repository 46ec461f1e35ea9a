// One piece of a member, and what is inlined in it.
ghost use Rattle.std.specs.Prelude.{◌≡◌, ◌∷◌, [], ℕ, OnOk};
ghost use Rattle.std.specs.Option.{option_or};
ghost use Rattle.address_spans.specs.Spans.{AreDisjoint, framed_owner, owner_at};

use address_spans::Span;
use refusal::NoMemory;

/// Appends what of the inner spans lies in a frame, and between them the frame.
pub(crate) fn push_framed(
    spans: &mut Vec<Span>,
    frame: &Span,
    inner: &[Span],
) -> Result<(), NoMemory>
    requires { AreDisjoint inner.now }
    ensures { OnOk result ((address : ℕ) → owner_at spans.new.items address
        ≡ option_or (owner_at spans.old.items address)
        (framed_owner (owner_at (frame.now ∷ []) address) (owner_at inner.now address))) }
{
    let mut from = frame.lo;
    for span in inner {
        push_filled(spans, from, span.lo.min(frame.hi), frame.owner)?;
        push_filled(spans, span.lo.max(from), span.hi.min(frame.hi), span.owner)?;
        from = span.hi.max(from);
    }
    push_filled(spans, from, frame.hi, frame.owner)
}

/// Appends a span, unless it is empty.
fn push_filled(spans: &mut Vec<Span>, lo: u64, hi: u64, owner: usize) -> Result<(), NoMemory>
    ensures { OnOk result ((address : ℕ) → owner_at spans.new.items address
        ≡ option_or (owner_at spans.old.items address)
        (owner_at (record { lo = lo; hi = hi; owner = owner } ∷ []) address)) }
{
    if lo < hi {
        spans.push(Span { lo, hi, owner })?;
    }
    Ok(())
}
