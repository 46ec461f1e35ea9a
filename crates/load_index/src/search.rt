// Two ways to find the last load that holds an address: one by one, and by spans.
ghost use Rattle.std.specs.Prelude.{◌≡◌, ◌+◌, ◌++◌, ◌^◌, ◌<◌, ◌≤◌, [], length, reverse, slice_get, take, IfOk};
ghost use Rattle.sample_model.specs.Moves.{holds as holds_told, last_load};
ghost use Rattle.load_index.specs.Spans.{IsSpanned, newest_first, span_of as span_told};

use address_spans::{Span, disjoint, owner_at};
use refusal::NoMemory;
use sample_model::Load;
use std::alloc::Global;

/// What some loads hold.
#[derive(Debug, Drop)]
pub(crate) struct Spanned {
    /// How many loads there are.
    pub count: usize,
    /// Which of them is the last that holds an address, by its place, but for the last address.
    pub spans: Vec<Span>,
    /// The last of them that holds the last address, which no span does.
    pub top: Option<Load>,
}

impl Spanned {
    /// Of no loads.
    pub fn new(alloc: Global) -> Spanned
        ensures count { result.count ≡ 0 }
        ensures spans { IsSpanned [] result.spans.items result.top }
    {
        Spanned {
            count: 0,
            spans: Vec::new(alloc),
            top: None,
        }
    }

    /// Of all these loads, of which the first are spanned: what the others hold is laid over that.
    pub fn grown(self, alloc: Global, loads: &[Load]) -> Result<Spanned, NoMemory>
        requires within { self.count ≤ length loads.now }
        requires spans { IsSpanned (take self.count loads.now) self.spans.items self.top }
        ensures count { IfOk result (λ made. made.count ≡ length loads.now) }
        ensures spans { IfOk result (λ made. IsSpanned loads.now made.spans.items made.top) }
    {
        let Spanned {
            count,
            spans: below,
            top,
        } = self;
        let (_, recent) = loads.split_at(count);
        let laid = laid_over(alloc, count, recent, below)?;
        let spans = disjoint(alloc, &laid)?;
        Ok(Spanned {
            count: loads.len(),
            spans,
            top: last_of(recent, u64::MAX).or(top),
        })
    }

    /// The last of the loads that holds an address.
    pub fn last(&self, loads: &[Load], address: u64) -> Option<Load>
        requires { IsSpanned loads.now self.now.spans.items self.now.top }
        ensures { result ≡ last_load loads.now address }
    {
        if address == u64::MAX {
            return self.top;
        }
        let place = owner_at(&self.spans, address)?;
        load_at(loads, place)
    }
}

/// What loads hold whose places begin at `first`, the newest first, in front of other spans.
fn laid_over(
    alloc: Global,
    first: usize,
    loads: &[Load],
    mut below: Vec<Span>,
) -> Result<Vec<Span>, NoMemory>
    requires { first + length loads.now < 2 ^ 64 }
    ensures { IfOk result (λ spans. spans.items
        ≡ newest_first first (reverse loads.now) ++ below.items) }
{
    let mut spans = Vec::with_capacity(alloc, loads.len())?;
    let mut rest = loads;
    while let Some((load, before)) = rest.split_last() {
        spans.push(span_of(first + before.len(), load))?;
        rest = before;
    }
    spans.append(&mut below)?;
    Ok(spans)
}

/// What the load at a place holds, but for the last address.
fn span_of(place: usize, load: &Load) -> Span
    ensures { result ≡ span_told place load.now }
{
    Span {
        lo: load.start,
        hi: load.start.saturating_add(load.len),
        owner: place,
    }
}

/// The load at a place, if there is one.
fn load_at(loads: &[Load], place: usize) -> Option<Load>
    ensures { result ≡ slice_get loads.now place }
{
    loads.get(place).copied()
}

/// The last of some loads that holds an address.
pub(crate) fn last_of(loads: &[Load], address: u64) -> Option<Load>
    ensures { result ≡ last_load loads.now address }
{
    let mut rest = loads;
    while let Some((load, before)) = rest.split_last() {
        if holds(load, address) {
            return Some(*load);
        }
        rest = before;
    }
    None
}

/// Whether an address is one of those that were loaded.
fn holds(load: &Load, address: u64) -> bool
    ensures { result ≡ holds_told address load.now }
{
    load.start <= address && address - load.start < load.len
}
