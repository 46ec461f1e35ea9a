// The address of an offset in a program's file, by spans of offsets.
ghost use Rattle.std.specs.Prelude.{◌≡◌, ◌+◌, ◌*◌, ◌≤◌, find, slice_get, option_and_then, IfOk};
ghost use Rattle.load_model.specs.Segments as loading;
ghost use Rattle.load_index.specs.Offsets.{EndInTime, TellFirst, far_from, span_from as span_told, spans_from as spans_told};

use address_spans::{Span, disjoint, owner_at};
use load_model::LoadSegment;
use refusal::NoMemory;
use std::alloc::Global;
use std::marker::Model;

/// Offsets from this one on are counted from it: no span holds it, since a span has an end.
const FAR: u128 = u64::MAX as u128;

/// Segments of a program in their order, of which the first one that has an offset is found.
#[derive(Debug, Drop)]
pub struct SegmentIndex {
    segments: Vec<LoadSegment>,
    /// Which of them is the first that has an offset before `FAR`, by its place.
    near: Vec<Span>,
    /// The same of the offsets from `FAR` on, counted from there.
    far: Vec<Span>,
}

impl Model for SegmentIndex {
    ghost use Rattle.std.specs.Prelude.{List};
    ghost use Rattle.load_model.specs.declared.load_segment.LoadSegment.{LoadSegment};
    ghost use Rattle.load_index.specs.Offsets.{EndInTime, TellFirst, far_from};

    ghost Value = { List LoadSegment };

    ghost view = { λ index. index.segments.items };

    ghost invariant = { λ index. TellFirst 0 index.segments.items index.near.items
        × TellFirst far_from index.segments.items index.far.items
        × EndInTime index.segments.items };
}

impl SegmentIndex {
    /// Of these segments.
    ///
    /// # Errors
    /// `NoMemory`.
    pub fn new(alloc: Global, segments: &[LoadSegment]) -> Result<SegmentIndex, NoMemory>
        ensures { IfOk result (λ index. index ≡ segments.now) }
    {
        let near = spanned(alloc, segments, 0)?;
        let far = spanned(alloc, segments, u64::MAX)?;
        let segments = Vec::from_slice(alloc, segments)?;
        Ok(SegmentIndex {
            segments,
            near,
            far,
        })
    }

    /// The address at which the byte at an offset in the file is loaded: in the first segment that
    /// has it, and if it fits 64 bits.
    ///
    /// Source: System V gABI, "Program Header".
    #[tactic(auto, using(crate::proofs::OffsetLemmas::found_begins), unfolding(load_model::specs::Segments::address_of_offset))]
    pub fn address_of_offset(&self, offset: u128) -> Option<u64>
        ensures { result ≡ loading.address_of_offset self.now offset }
    {
        let segment = self.first(offset)?;
        address_in(&segment, offset)
    }

    /// The first segment that has an offset.
    fn first(&self, offset: u128) -> Option<LoadSegment>
        ensures { result ≡ find (loading.has_offset offset) self.now }
    {
        let place = self.place(offset)?;
        self.segments.get(place).copied()
    }

    /// The place of the first segment that has an offset.
    #[tactic(auto, using(crate::proofs::OffsetLemmas::none_further))]
    fn place(&self, offset: u128) -> Option<usize>
        ensures { find (loading.has_offset offset) self.now
            ≡ option_and_then (slice_get self.now) result }
    {
        if offset < FAR {
            return owner_at(&self.near, offset as u64);
        }
        if offset < 2 * FAR {
            return owner_at(&self.far, (offset - FAR) as u64);
        }
        None
    }
}

/// Which of the segments is the first that has an offset, by its place. Offsets are counted from
/// `base`, and those that are `FAR` or more behind it are left out.
fn spanned(alloc: Global, segments: &[LoadSegment], base: u64) -> Result<Vec<Span>, NoMemory>
    ensures told { IfOk result (λ spans. TellFirst base segments.now spans.items) }
    ensures end { IfOk result (λ _. EndInTime segments.now) }
{
    let in_order = spans_from(alloc, segments, base)?;
    disjoint(alloc, &in_order)
}

/// What each of the segments has of the offsets from `base` on.
fn spans_from(alloc: Global, segments: &[LoadSegment], base: u64) -> Result<Vec<Span>, NoMemory>
    ensures spans { IfOk result (λ spans. spans.items ≡ spans_told base 0 segments.now) }
    ensures end { IfOk result (λ _. EndInTime segments.now) }
{
    let mut spans = Vec::with_capacity(alloc, segments.len())?;
    for (place, segment) in segments.iter().enumerate() {
        spans.push(span_from(base, place, segment))?;
    }
    Ok(spans)
}

/// What the segment at a place has of the offsets from `base` on.
fn span_from(base: u64, place: usize, segment: &LoadSegment) -> Span
    ensures span { result ≡ span_told base place segment.now }
    ensures end { segment.now.offset + segment.now.size ≤ 2 * far_from }
{
    let end = u128::from(segment.offset) + u128::from(segment.size);
    let behind = end.saturating_sub(u128::from(base));
    Span {
        lo: segment.offset.saturating_sub(base),
        hi: behind.min(FAR) as u64,
        owner: place,
    }
}

/// The address of an offset that a segment has, if it fits 64 bits.
fn address_in(segment: &LoadSegment, offset: u128) -> Option<u64>
    requires { segment.now.offset ≤ offset }
    ensures { result ≡ loading.address_in offset segment.now }
{
    let behind = offset - u128::from(segment.offset);
    let address = u128::from(segment.vaddr).checked_add(behind)?;
    u64::try_from(address).ok()
}
