// Blocks with repaired counts as spans.
ghost use Rattle.std.specs.Prelude.{◌≡◌, ◌++◌, ℕ, IfOk, OnOk, map, zip};
ghost use Rattle.address_spans.specs.Spans.{AreDisjoint, owner_at};
ghost use Rattle.cfg_text.specs.Fun.{function_of};
ghost use Rattle.output_model.specs.Lift.{counted_blocks};
ghost use Rattle.repair_text.specs.Repair.{solution_of};
ghost use Rattle.line_lift.specs.Largest.{IsLargest};
ghost use Rattle.line_lift.specs.Lift.{repaired};
ghost use Rattle.line_lift.specs.Spans.{IsOwnerOver, counted, span_of};

use address_spans::{Span, disjoint};
use cfg_text::Fun;
use flow_network::{Flow, Solved};
use refusal::NoMemory;
use repair_text::Repair;
use std::alloc::Global;

/// The blocks of functions with counts, each as a span that its count owns.
pub(crate) fn spans_of(
    alloc: Global,
    funs: &[Fun<'_>],
    repairs: &[Repair],
) -> Result<Vec<Span>, NoMemory>
    ensures { IfOk result (λ spans.
        spans.items ≡ map span_of (counted (repaired funs.now repairs.now))) }
{
    let mut spans = Vec::new(alloc);
    for (fun, repair) in funs.iter().zip(repairs) {
        push_spans(&mut spans, fun, &repair.solved)?;
    }
    Ok(spans)
}

/// Appends the blocks of a function; none where there is a cut.
fn push_spans(spans: &mut Vec<Span>, fun: &Fun<'_>, solved: &Solved) -> Result<(), NoMemory>
    ensures { OnOk result (spans.new.items ≡ spans.old.items
        ++ map span_of (counted_blocks (function_of fun.now) (solution_of solved.now))) }
{
    match solved {
        Solved::Flow(flow, _) => push_counted(spans, fun, flow),
        Solved::Cut(_) => Ok(()),
    }
}

/// Appends the blocks of a function with these counts.
fn push_counted(spans: &mut Vec<Span>, fun: &Fun<'_>, flow: &Flow) -> Result<(), NoMemory>
    ensures { OnOk result (spans.new.items ≡ spans.old.items
        ++ map span_of (zip fun.now.blocks flow.now.blocks)) }
{
    for (block, count) in fun.blocks.as_slice().iter().zip(flow.blocks.as_slice()) {
        spans.push(Span {
            lo: block.lo,
            hi: block.hi,
            owner: *count as usize,
        })?;
    }
    Ok(())
}

/// Disjoint spans, which have at each address the largest owner that one of the given spans has
/// there.
// Why: Blocks are laid over one another, the largest count first: to search each block's segments
// is quadratic where functions share places.
pub(crate) fn largest_first(alloc: Global, mut spans: Vec<Span>) -> Result<Vec<Span>, NoMemory>
    ensures disjoint { IfOk result (λ made. AreDisjoint made.items) }
    ensures largest { IfOk result (λ made. (address : ℕ) →
        IsLargest (IsOwnerOver spans.items address) (owner_at made.items address)) }
{
    spans.sort_unstable_by_key(|span| span.owner);
    spans.reverse();
    disjoint(alloc, &spans)
}
