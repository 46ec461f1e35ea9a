// Edges as numbers.
ghost use Rattle.std.specs.Prelude.{◌≡◌, ◌≤◌, ◌<◌, ◌-◌, length, nat_eq, slice_index_or, true};
ghost use Rattle.std.specs.List.{AllWithin, list_any};
ghost use Rattle.std.specs.List.Sorted.{IsNonDecreasingBy};
ghost use Rattle.block_model.specs.declared.parts.Edge.{Edge};
ghost use Rattle.cfg_text.specs.Draft.{way_by, way_of};

use block_model::Edge;

/// An edge as one number.
pub(crate) fn way(from: u64, to: u64) -> u64
    requires from_fits { from < 65536 }
    requires to_fits { to < 65536 }
    ensures { result ≡ way_of from to }
{
    from * 65_536 + to
}

/// An edge as one number.
fn way_by(edge: &Edge) -> u64
    ensures { result ≡ way_by edge.now }
{
    u64::from(edge.from) * 65_536 + u64::from(edge.to)
}

/// Whether all edges are among those that stand by their ways, which are so many at the front, and
/// none goes a later way than this.
pub(crate) fn all_go_by(edges: &[Edge], sorted: usize, way: u64) -> bool
    ensures all { result ≡ true → sorted ≡ length edges.now }
    ensures before { result ≡ true → (edge : Edge) → 0 < length edges.now
        → way_by (slice_index_or edges.now (length edges.now - 1) edge) ≤ way }
{
    sorted == edges.len() && ends_by(edges, way)
}

/// Whether the last edge goes no later way than this.
fn ends_by(edges: &[Edge], way: u64) -> bool
    ensures { result ≡ true → (edge : Edge) → 0 < length edges.now
        → way_by (slice_index_or edges.now (length edges.now - 1) edge) ≤ way }
{
    match edges.last() {
        Some(last) => way_by(last) <= way,
        None => true,
    }
}

/// Whether some of these edges, which stand by their ways, goes this one.
pub(crate) fn has_way(edges: &[Edge], way: u64) -> bool
    requires { IsNonDecreasingBy way_by edges.now }
    ensures { result ≡ list_any (λ edge. nat_eq way (way_by edge)) edges.now }
{
    let place = gone_before(edges, way);
    if place == edges.len() {
        return false;
    }
    way_by(&edges[place]) == way
}

/// How many of these edges, which stand by their ways, go an earlier one than this.
fn gone_before(edges: &[Edge], way: u64) -> usize
    requires { IsNonDecreasingBy way_by edges.now }
    ensures within { result ≤ length edges.now }
    ensures before { AllWithin (λ edge. way_by edge < way) edges.now 0 result }
    ensures others { AllWithin (λ edge. way ≤ way_by edge) edges.now result (length edges.now) }
{
    edges.partition_point(|edge| way_by(edge) < way)
}
