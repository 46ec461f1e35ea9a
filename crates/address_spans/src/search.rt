ghost use Rattle.std.specs.Prelude.{◌≡◌};
ghost use Rattle.address_spans.specs.Spans.{AreDisjoint, owner_at as owner_of};

use crate::span::Span;

/// The owner of the span that holds an address, found by binary search.
pub fn owner_at(spans: &[Span], address: u64) -> Option<usize>
    requires { AreDisjoint spans.now }
    ensures { result ≡ owner_of spans.now address }
{
    let at = spans.partition_point(|span| span.hi <= address);
    match spans.get(at) {
        Some(span) if span.lo <= address => Some(span.owner),
        _ => None,
    }
}
