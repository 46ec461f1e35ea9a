ghost use Rattle.std.specs.Prelude.{◌≡◌, ℕ, IfOk};
ghost use Rattle.address_spans.specs.Spans.{AreDisjoint, owner_at};
ghost use Rattle.chain_model.specs.Chains.{function_at};

use crate::pieces::push_pieces;
use address_spans::{Span, disjoint};
use chain_model::Member;
use refusal::NoMemory;
use std::alloc::Global;

/// Spans that ascend, none of them empty and no two over one another. The owner of an address is
/// the number of its function.
///
/// # Errors
/// `NoMemory`.
pub fn function_cover(alloc: Global, members: &[Member]) -> Result<Vec<Span>, NoMemory>
    ensures disjoint { IfOk result (λ made. AreDisjoint made.items) }
    ensures owners { IfOk result (λ made.
        (address : ℕ) → owner_at made.items address ≡ function_at members.now address) }
{
    disjoint(alloc, &all_pieces(alloc, members)?)
}

/// The pieces of all functions, in their order.
fn all_pieces(alloc: Global, members: &[Member]) -> Result<Vec<Span>, NoMemory>
    ensures { IfOk result (λ spans.
        (address : ℕ) → owner_at spans.items address ≡ function_at members.now address) }
{
    let mut spans = Vec::new(alloc);
    for (number, member) in members.iter().enumerate() {
        if member.depth == 0 {
            push_pieces(&mut spans, member, number)?;
        }
    }
    Ok(spans)
}
