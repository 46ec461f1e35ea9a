// Open sides, the nearest first.
ghost use Rattle.std.specs.Prelude.{◌≡◌, ◌<◌, ◌≤◌, ◌-◌, ◌^◌, ◌∷◌, [], ℕ};
ghost use Rattle.std.specs.Prelude.{IfOk, IfSome, IfNone, OnOk, slice_index_or};
ghost use Rattle.std.specs.List.{All};
ghost use Rattle.std.specs.List.Sorted.{IsPermutation};
ghost use Rattle.std.specs.BinaryHeap.{heap_items, heap_len};
ghost use Rattle.reached_sides.specs.Nearness.{IsNearestFirst, by_distance};

use crate::rows::SideRows;
use refusal::NoMemory;
use std::alloc::Global;
use std::collections::BinaryHeap;
use std::marker::Model;

/// The sides that a search has still to settle, each with a distance; the nearest comes first.
///
/// A side may stand here more than once, with the distances that it had before. Of sides at the
/// same distance mostly the one that was pushed first comes first, so that a search finds ways of
/// few steps. No clause promises that.
#[derive(Debug, Drop)]
pub struct Frontier {
    /// The sides that are little farther than the one that was taken out last, as a rule.
    near: SideRows,
    /// The other sides.
    heap: BinaryHeap<(u64, u32)>,
}

// Clauses see the distances and the sides, in no order that they could name.
impl Model for Frontier {
    ghost use Rattle.std.specs.Prelude.{◌++◌, ℕ, List, map};
    ghost use Rattle.std.specs.BinaryHeap.{heap_items};
    ghost use Rattle.reached_sides.specs.Nearness.{IsNearestFirst, by_distance};

    ghost Value = { List (ℕ × ℕ) };

    ghost view = { λ frontier. frontier.near ++ map by_distance (heap_items frontier.heap) };

    ghost invariant = { λ frontier. IsNearestFirst (heap_items frontier.heap) };
}

impl Frontier {
    /// Without sides.
    pub fn new(alloc: Global) -> Result<Frontier, NoMemory>
        ensures { IfOk result (λ frontier. frontier ≡ []) }
    {
        let near = SideRows::new(alloc)?;
        Ok(Frontier {
            near,
            heap: BinaryHeap::new(alloc),
        })
    }

    /// Forgets all sides.
    pub fn clear(&mut self)
        ensures { self.new ≡ [] }
    {
        self.near.clear();
        self.heap.clear();
    }

    /// Adds a side at a distance.
    pub fn push(&mut self, distance: u64, side: u32) -> Result<(), NoMemory>
        ensures { OnOk result (IsPermutation ((distance, side) ∷ self.old) self.new) }
    {
        if self.near.push(distance, side)? {
            return Ok(());
        }
        self.heap.push((u64::MAX - distance, side))?;
        Ok(())
    }

    /// Takes out a side that no other one is nearer than, with its distance; `None` exactly where
    /// there is none.
    pub fn pop(&mut self) -> Option<(u64, u32)>
        ensures taken { IfSome result (λ nearest. IsPermutation self.old (nearest ∷ self.new)) }
        ensures nearest { IfSome result (λ nearest. All (λ other. nearest.0 ≤ other.0) self.new) }
        ensures empty { IfNone result (self.old ≡ []) }
    {
        if let Some(nearest) = self.near.pop_up_to(least_distance(&self.heap)) {
            return Some(nearest);
        }
        let first = self.heap.pop()?;
        let distance = distance_of(first);
        self.near.begin_at(distance);
        Some((distance, first.1))
    }
}

/// The distance of a heap's first side, than which none is nearer; the greatest of all if it has no
/// side.
fn least_distance(heap: &BinaryHeap<(u64, u32)>) -> u64
    requires { IsNearestFirst (heap_items heap.now) }
    ensures first { 0 < heap_len heap.now
        → (d : ℕ × ℕ) → result ≡ (by_distance (slice_index_or (heap_items heap.now) 0 d)).0 }
    ensures least { All (λ entry. result ≤ (by_distance entry).0) (heap_items heap.now) }
    ensures none { heap_len heap.now ≡ 0 → result ≡ 2 ^ 64 - 1 }
{
    match heap.peek() {
        Some(first) => distance_of(*first),
        None => u64::MAX,
    }
}

/// The distance of an entry of the heap.
fn distance_of(entry: (u64, u32)) -> u64
    ensures { result ≡ (by_distance entry).0 }
{
    u64::MAX - entry.0
}
