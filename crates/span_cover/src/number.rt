ghost use Rattle.std.specs.Prelude.{◌≡◌, IfOk};
ghost use Rattle.span_cover.specs.Stretches.{numbered};

use address_spans::Span;
use refusal::NoMemory;
use std::alloc::Global;

/// The spans, each owned by its place among them.
pub(crate) fn numbered(alloc: Global, spans: &[Span]) -> Result<Vec<Span>, NoMemory>
    ensures { IfOk result (λ made. made.items ≡ numbered 0 spans.now) }
{
    let mut made = Vec::new(alloc);
    for (owner, span) in spans.iter().enumerate() {
        made.push(Span {
            lo: span.lo,
            hi: span.hi,
            owner,
        })?;
    }
    Ok(made)
}
