// The covers of functions.
ghost use Rattle.std.specs.Prelude.{◌≡◌, ◌+◌, ◌<◌, ℕ, [], drop, length, nat_lt, IfOk, OnOk};
ghost use Rattle.std.specs.List.{filter};
ghost use Rattle.std.specs.Option.{option_or};
ghost use Rattle.address_spans.specs.Spans.{AreDisjoint, owner_at};
ghost use Rattle.chain_model.specs.Chains.{innermost, numbered};
ghost use Rattle.span_cover.specs.Asked.{innermost_asked, is_asked};
ghost use Rattle.span_cover.specs.Owners.{owned_by_function, owned_from};

use crate::level::{cover_level, push_cover};
use crate::pieces::push_pieces;
use address_spans::{Span, disjoint};
use chain_model::Member;
use refusal::NoMemory;
use std::alloc::Global;

/// Spans that ascend, none of them empty and no two over one another. The owner of an address is
/// the number of the last member of its chain; addresses that no function holds lie in no span.
///
/// # Errors
/// `NoMemory`.
pub fn cover(alloc: Global, members: &[Member]) -> Result<Vec<Span>, NoMemory>
    ensures disjoint { IfOk result (λ made. AreDisjoint made.items) }
    ensures owners { IfOk result (λ made.
        (address : ℕ) → owner_at made.items address ≡ innermost members.now address) }
{
    cover_asked(alloc, members, &[])
}

/// The same for the functions that are asked for: addresses that others hold lie in no span. There
/// is a mark for each member at its number; where marks end, all are asked for.
///
/// # Errors
/// `NoMemory`.
pub fn cover_asked(alloc: Global, members: &[Member], marks: &[bool]) -> Result<Vec<Span>, NoMemory>
    ensures disjoint { IfOk result (λ made. AreDisjoint made.items) }
    ensures owners { IfOk result (λ made. (address : ℕ)
        → owner_at made.items address ≡ innermost_asked marks.now members.now address) }
{
    let mut made = disjoint(alloc, &covers(alloc, members, marks)?)?;
    keep_below(&mut made, members.len());
    Ok(made)
}

/// The covers of all functions, in their order. Those that are not asked for belong to nobody: a
/// number that no member has.
fn covers(alloc: Global, members: &[Member], marks: &[bool]) -> Result<Vec<Span>, NoMemory>
    ensures { IfOk result (λ spans. (address : ℕ) → owner_at spans.items address
        ≡ owned_from marks.now (length members.now) address (numbered members.now)) }
{
    let mut spans = Vec::new(alloc);
    for (number, member) in members.iter().enumerate() {
        if member.depth == 0 {
            push_function(alloc, &mut spans, members, member, number, marks)?;
        }
    }
    Ok(spans)
}

/// Appends the cover of a function, or where it is not asked for its pieces.
fn push_function(
    alloc: Global,
    spans: &mut Vec<Span>,
    members: &[Member],
    member: &Member,
    number: usize,
    marks: &[bool],
) -> Result<(), NoMemory>
    requires { number < length members.now }
    ensures { OnOk result ((address : ℕ) → owner_at spans.new.items address
        ≡ option_or (owner_at spans.old.items address)
        (owned_by_function marks.now (length members.now) address (number, member.now)
        (drop (number + 1) (numbered members.now)))) }
{
    if is_asked(marks, number) {
        let inner = cover_level(alloc, members, number + 1, 1)?;
        return push_cover(alloc, spans, member, number, &inner.spans);
    }
    let nobody = members.len();
    push_pieces(spans, member, nobody)
}

/// Whether a function is asked for.
fn is_asked(marks: &[bool], function: usize) -> bool
    ensures { result ≡ is_asked marks.now function }
{
    match marks.get(function) {
        Some(asked) => *asked,
        None => true,
    }
}

/// Keeps the spans whose owners are below a number.
fn keep_below(spans: &mut Vec<Span>, end: usize)
    ensures { spans.new.items ≡ filter (λ span. nat_lt span.owner end) spans.old.items }
{
    spans.retain(|span| span.owner < end);
}
