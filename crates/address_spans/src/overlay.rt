// One disjoint list of spans laid over another.
ghost use Rattle.std.specs.Prelude.{◌≡◌, ◌++◌, ◌≤◌, IfOk, OnOk};
ghost use Rattle.address_spans.specs.Overlay.{IsLeft, clipped, clipped_all, overlaid};
ghost use Rattle.address_spans.specs.Spans.{AreDisjoint};

use crate::span::Span;
use refusal::NoMemory;
use std::alloc::Global;

/// Appends what of a span lies from `from` on and before `to`.
fn push_clipped(out: &mut Vec<Span>, span: &Span, from: u64, to: u64) -> Result<(), NoMemory>
    ensures { OnOk result (out.new.items ≡ out.old.items ++ clipped from to span.now) }
{
    let lo = span.lo.max(from);
    let hi = span.hi.min(to);
    if lo < hi {
        let owner = span.owner;
        out.push(Span { lo, hi, owner })?;
    }
    Ok(())
}

/// Appends what of these spans lies from `from` on and before `to`, and answers the spans from the
/// first one on that reaches behind `to`.
pub(crate) fn push_between<'s>(
    out: &mut Vec<Span>,
    spans: &'s [Span],
    from: u64,
    to: u64,
) -> Result<&'s [Span], NoMemory>
    requires { AreDisjoint spans.now }
    ensures pushed { OnOk result
        (out.new.items ≡ out.old.items ++ clipped_all from to spans.now) }
    ensures left { IfOk result (λ left. IsLeft to spans.now left.now) }
{
    for (i, span) in spans.iter().enumerate() {
        if span.lo >= to {
            return Ok(&spans[i..]);
        }
        push_clipped(out, span, from, to)?;
        if span.hi > to {
            return Ok(&spans[i..]);
        }
    }
    Ok(&[])
}

/// The spans above, and between them what of those below is not under them.
pub(crate) fn overlay(alloc: Global, above: &[Span], below: &[Span]) -> Result<Vec<Span>, NoMemory>
    requires above { AreDisjoint above.now }
    requires below { AreDisjoint below.now }
    ensures { IfOk result (λ spans. spans.items ≡ overlaid 0 above.now below.now) }
{
    let mut out = Vec::with_capacity(alloc, above.len() + below.len())?;
    let mut left = below;
    let mut from = 0;
    for span in above {
        left = push_between(&mut out, left, from, span.lo)?;
        out.push(*span)?;
        from = span.hi;
    }
    push_between(&mut out, left, from, u64::MAX)?;
    Ok(out)
}
