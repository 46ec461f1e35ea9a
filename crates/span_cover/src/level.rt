// The covers of members of one depth.
ghost use Rattle.std.specs.Prelude.{◌≡◌, ◌<◌, ◌≤◌, ℕ, drop, length, IfOk, OnOk};
ghost use Rattle.std.specs.Option.{option_map, option_or};
ghost use Rattle.address_spans.specs.Spans.{AreDisjoint, framed_owner, owner_at};
ghost use Rattle.chain_model.specs.Chains.{numbered};
ghost use Rattle.span_cover.specs.Levels.{IsLevel, next_in};
ghost use Rattle.span_cover.specs.Owners.{owned};

use crate::frame::push_framed;
use crate::pieces::push_pieces;
use address_spans::{Span, disjoint, framed};
use chain_model::Member;
use refusal::NoMemory;
use std::alloc::Global;

/// The cover of the members of one depth, and the number behind them and all that is below them.
#[derive(Drop)]
pub(crate) struct Level {
    pub(crate) spans: Vec<Span>,
    pub(crate) end: usize,
}

/// The cover of the members of a depth from a number on, up to a member that is less deep.
pub(crate) fn cover_level(
    alloc: Global,
    members: &[Member],
    first: usize,
    depth: usize,
) -> Result<Level, NoMemory>
    requires { first ≤ length members.now }
    ensures { IfOk result
        (λ level. IsLevel members.now first depth level.spans.items level.end) }
{
    let mut spans = Vec::new(alloc);
    let mut at = first;
    while let Some(member) = next_in(members, at, depth) {
        let inner = cover_level(alloc, members, at + 1, depth_of(member) + 1)?;
        if depth_of(member) == depth {
            push_cover(alloc, &mut spans, member, at, &inner.spans)?;
        }
        at = inner.end;
    }
    Ok(Level {
        spans: disjoint(alloc, &spans)?,
        end: at,
    })
}

/// The member of a number, if there is one and it is not less deep than this.
fn next_in(members: &[Member], at: usize, depth: usize) -> Option<&Member>
    ensures { option_map (λ member. member.now) result
        ≡ next_in depth (drop at (numbered members.now)) }
{
    let Some(member) = members.get(at) else {
        return None;
    };
    if depth_of(member) < depth {
        return None;
    }
    Some(member)
}

/// The depth of a member.
fn depth_of(member: &Member) -> usize
    ensures depth { result ≡ member.now.depth }
    ensures limit { result < 256 }
{
    usize::from(member.depth)
}

/// Appends the cover of one member: its pieces, and in them what is inlined there.
pub(crate) fn push_cover(
    alloc: Global,
    spans: &mut Vec<Span>,
    member: &Member,
    number: usize,
    inner: &[Span],
) -> Result<(), NoMemory>
    requires { AreDisjoint inner.now }
    ensures { OnOk result ((address : ℕ) → owner_at spans.new.items address
        ≡ option_or (owner_at spans.old.items address)
        (framed_owner (owned address number member.now) (owner_at inner.now address))) }
{
    if inner.is_empty() {
        return push_pieces(spans, member, number);
    }
    if let [(lo, hi)] = member.pieces.as_slice() {
        let (lo, hi) = (*lo, *hi);
        let owner = number;
        return push_framed(spans, &Span { lo, hi, owner }, inner);
    }
    let mut pieces = Vec::new(alloc);
    push_pieces(&mut pieces, member, number)?;
    let mut cover = framed(alloc, &disjoint(alloc, &pieces)?, inner)?;
    spans.append(&mut cover)?;
    Ok(())
}
