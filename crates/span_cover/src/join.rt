ghost use Rattle.std.specs.Prelude.{◌≡◌, IfOk};
ghost use Rattle.span_cover.specs.Stretches.{joined, touch};

use address_spans::Span;
use refusal::NoMemory;
use std::alloc::Global;

/// The spans, with those that touch and have one owner made one.
pub(crate) fn joined(alloc: Global, spans: &[Span]) -> Result<Vec<Span>, NoMemory>
    ensures { IfOk result (λ made. made.items ≡ joined spans.now) }
{
    let mut made = Vec::new(alloc);
    let Some((first, rest)) = spans.split_first() else {
        return Ok(made);
    };
    let mut last = *first;
    for span in rest {
        if touch(&last, span) {
            last.hi = span.hi;
        } else {
            made.push(last)?;
            last = *span;
        }
    }
    made.push(last)?;
    Ok(made)
}

/// Whether one span ends where another begins and both have one owner.
fn touch(x: &Span, y: &Span) -> bool
    ensures { result ≡ touch x.now y.now }
{
    x.hi == y.lo && x.owner == y.owner
}
