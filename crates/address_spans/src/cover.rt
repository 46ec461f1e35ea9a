ghost use Rattle.std.specs.Prelude.{◌≡◌, ◌↔◌, ◌<◌, ℕ, IfOk, IsTrue};
ghost use Rattle.address_spans.specs.Spans.{AreDisjoint, owner_at};

use crate::overlay::overlay;
use crate::span::Span;
use refusal::NoMemory;
use std::alloc::Global;

/// Spans that ascend, none of them empty and no two over one another, which have at each address
/// the owner that the first of the given spans there has.
///
/// # Errors
/// `NoMemory`.
pub fn disjoint(alloc: Global, spans: &[Span]) -> Result<Vec<Span>, NoMemory>
    ensures disjoint { IfOk result (λ made. AreDisjoint made.items) }
    ensures same { IfOk result
        (λ made. (address : ℕ) → owner_at made.items address ≡ owner_at spans.now address) }
{
    if let [span] = spans
        && span.hi <= span.lo
    {
        return Ok(Vec::new(alloc));
    }
    if are_disjoint(spans) {
        return Ok(Vec::from_slice(alloc, spans)?);
    }
    let (front, back) = spans.split_at(spans.len() / 2);
    overlay(alloc, &disjoint(alloc, front)?, &disjoint(alloc, back)?)
}

/// Whether spans ascend, none of them empty and no two over one another.
fn are_disjoint(spans: &[Span]) -> bool
    ensures { IsTrue result ↔ AreDisjoint spans.now }
{
    let mut from = 0;
    for span in spans {
        if span.lo < from || span.hi <= span.lo {
            return false;
        }
        from = span.hi;
    }
    true
}
