// A row of sides.
ghost use Rattle.std.specs.Prelude.{◌≡◌, ◌++◌, ◌∷◌, [], ◌↔◌, length, IsTrue, IfNone, IfSome, OnErr, OnOk};

use refusal::NoMemory;
use std::alloc::Global;
use std::marker::Model;

/// How many sides a row has room for at first. Most rows never hold more.
const FIRST_ROOM: usize = 32;

/// Sides of which the one that came first is taken first.
///
/// They stand in one list, and those that were taken are dropped when the last one is. So a side is
/// put behind the others without a look at where the list ends, as in a ring.
#[derive(Debug, Drop)]
pub(crate) struct SideRow {
    sides: Vec<u32>,
    taken: usize,
}

// Clauses see the sides that are left.
impl Model for SideRow {
    ghost use Rattle.std.specs.Prelude.{◌≤◌, ℕ, List, drop, length};

    ghost Value = { List ℕ };

    ghost view = { λ row. drop row.taken row.sides.items };

    ghost invariant = { λ row. row.taken ≤ length row.sides.items };
}

impl SideRow {
    /// Without sides.
    pub fn new(alloc: Global) -> SideRow
        ensures { result ≡ [] }
    {
        SideRow {
            sides: Vec::new(alloc),
            taken: 0,
        }
    }

    /// Whether no side is left.
    pub fn is_empty(&self) -> bool
        ensures { IsTrue result ↔ (length self.now ≡ 0) }
    {
        self.taken == self.sides.len()
    }

    /// Adds a side behind the others. Room for the first ones is taken at once.
    pub fn push(&mut self, side: u32) -> Result<(), NoMemory>
        ensures added { OnOk result (self.new ≡ self.old ++ side ∷ []) }
        ensures same { OnErr result (self.new ≡ self.old) }
    {
        if self.sides.capacity() == 0 {
            self.sides.reserve(FIRST_ROOM)?;
        }
        self.sides.push(side)?;
        Ok(())
    }

    /// Takes the first side.
    pub fn take_first(&mut self) -> Option<u32>
        ensures taken { IfSome result (λ side. self.old ≡ side ∷ self.new) }
        ensures none { IfNone result (self.old ≡ []) }
    {
        if self.is_empty() {
            return None;
        }
        let side = self.sides[self.taken];
        self.taken += 1;
        if self.is_empty() {
            self.clear();
        }
        Some(side)
    }

    /// Drops all sides.
    pub fn clear(&mut self)
        ensures { self.new ≡ [] }
    {
        self.sides.clear();
        self.taken = 0;
    }
}
