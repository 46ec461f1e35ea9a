// The pieces of a member as spans.
ghost use Rattle.std.specs.Prelude.{◌≡◌, ◌++◌, OnOk};
ghost use Rattle.span_cover.specs.Owners.{spans_of};

use address_spans::Span;
use chain_model::Member;
use refusal::NoMemory;

/// Appends the pieces of a member, with its number as their owner.
pub(crate) fn push_pieces(
    spans: &mut Vec<Span>,
    member: &Member,
    owner: usize,
) -> Result<(), NoMemory>
    ensures { OnOk result
        (spans.new.items ≡ spans.old.items ++ spans_of owner member.now.pieces) }
{
    for &(lo, hi) in member.pieces.as_slice() {
        spans.push(Span { lo, hi, owner })?;
    }
    Ok(())
}
