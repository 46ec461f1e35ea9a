// Rows of sides, one for each distance.
ghost use Rattle.std.specs.Prelude.{◌≡◌, ◌<◌, ◌≤◌, ◌+◌, ◌-◌, ◌^◌, ◌∷◌, [], true, false, length};
ghost use Rattle.std.specs.Prelude.{IfOk, IfSome, IfNone, slice_index_or};
ghost use Rattle.std.specs.List.{All};
ghost use Rattle.std.specs.List.Sorted.{IsPermutation};
ghost use Rattle.reached_sides.specs.Nearness.{AreEmptyBelow};

use crate::row::SideRow;
use refusal::NoMemory;
use std::alloc::Global;
use std::marker::Model;

/// How many rows there are. A step costs at most 40, so that most of the sides that are pushed lie
/// so near.
const ROWS: usize = 64;

/// Sides at some distances from one on. Each of these has a row of its own, in which the side that
/// was pushed first comes first.
#[derive(Debug, Drop)]
pub(crate) struct SideRows {
    /// The distance of the first row.
    here: u64,
    /// The rows below this one are empty.
    low: usize,
    rows: Vec<SideRow>,
}

// Clauses see the distances and the sides.
impl Model for SideRows {
    ghost use Rattle.std.specs.Prelude.{◌≡◌, ◌≤◌, ℕ, List, length};
    ghost use Rattle.reached_sides.specs.Nearness.{AreEmptyBelow, HaveDistances, rows_from};

    ghost Value = { List (ℕ × ℕ) };

    ghost view = { λ rows. rows_from rows.here rows.rows.items };

    ghost invariant = { λ rows. record {
      all : length rows.rows.items ≡ 64;
      low : rows.low ≤ 64;
      empty : AreEmptyBelow rows.low rows.rows.items;
      fit : HaveDistances rows.here rows.rows.items;
    } };
}

impl SideRows {
    /// Without sides.
    pub fn new(alloc: Global) -> Result<SideRows, NoMemory>
        ensures { IfOk result (λ rows. rows ≡ []) }
    {
        let mut rows = Vec::with_capacity(alloc, ROWS)?;
        for _row in 0..ROWS {
            rows.push(SideRow::new(alloc))?;
        }
        Ok(SideRows {
            here: 0,
            low: ROWS,
            rows,
        })
    }

    /// Forgets all sides.
    pub fn clear(&mut self)
        ensures { self.new ≡ [] }
    {
        empty_from(&mut self.rows, self.low);
        self.low = ROWS;
        self.here = 0;
    }

    /// Adds a side at a distance, if there is a row for it; whether there is one.
    pub fn push(&mut self, distance: u64, side: u32) -> Result<bool, NoMemory>
        ensures added { IfOk result (λ added. added ≡ true
            → IsPermutation ((distance, side) ∷ self.old) self.new) }
        ensures not_added { IfOk result (λ added. added ≡ false → self.new ≡ self.old) }
    {
        match row_of(self.here, distance) {
            Some(row) => {
                self.rows[row].push(side)?;
                self.low = self.low.min(row);
                Ok(true)
            }
            None => Ok(false),
        }
    }

    /// Takes out a side that no other one is nearer than, with its distance, if that is within a
    /// limit; `None` where all sides are farther.
    pub fn pop_up_to(&mut self, limit: u64) -> Option<(u64, u32)>
        ensures taken { IfSome result (λ nearest. IsPermutation self.old (nearest ∷ self.new)) }
        ensures nearest { IfSome result (λ nearest. All (λ other. nearest.0 ≤ other.0) self.new) }
        ensures within { IfSome result (λ nearest. nearest.0 ≤ limit) }
        ensures unchanged { IfNone result (self.new ≡ self.old) }
        ensures beyond { IfNone result (All (λ other. limit < other.0) self.new) }
        ensures none { IfNone result (limit ≡ 2 ^ 64 - 1 → self.new ≡ []) }
    {
        self.low = first_filled(&self.rows, self.low);
        if self.low == ROWS {
            return None;
        }
        let distance = self.here + self.low as u64;
        if limit < distance {
            return None;
        }
        let side = self.rows[self.low].take_first()?;
        Some((distance, side))
    }

    /// Lets the rows begin at a distance, if they are empty.
    pub fn begin_at(&mut self, distance: u64)
        ensures { self.new ≡ self.old }
    {
        if self.low == ROWS {
            self.here = distance;
        }
    }
}

/// The row of a distance, where the first one is that of `here`; `None` where no row is.
fn row_of(here: u64, distance: u64) -> Option<usize>
    ensures found { IfSome result (λ row. (row < 64) × (here + row ≡ distance)) }
    ensures none { IfNone result (here ≤ distance → here + 64 ≤ distance) }
{
    if distance < here || distance - here >= ROWS as u64 {
        return None;
    }
    Some((distance - here) as usize)
}

/// The first row from a place on that has sides; the number of all rows if none has.
fn first_filled(rows: &[SideRow], from: usize) -> usize
    requires all { length rows.now ≡ 64 }
    requires low { from ≤ 64 }
    requires empty { AreEmptyBelow from rows.now }
    ensures low { result ≤ 64 }
    ensures empty { AreEmptyBelow result rows.now }
    ensures filled { result < 64
        → 0 < length (slice_index_or rows.now result []) }
{
    for row in from..ROWS {
        if !rows[row].is_empty() {
            return row;
        }
    }
    ROWS
}

/// Empties the rows from a place on.
fn empty_from(rows: &mut [SideRow], from: usize)
    requires all { length rows.old ≡ 64 }
    requires low { from ≤ 64 }
    requires empty { AreEmptyBelow from rows.old }
    ensures all { length rows.new ≡ 64 }
    ensures empty { AreEmptyBelow 64 rows.new }
{
    for row in from..ROWS {
        rows[row].clear();
    }
}
