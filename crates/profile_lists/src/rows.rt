// The rows of items, each with its total.
ghost use Rattle.std.specs.Prelude.{◌≡◌, ◌≤◌, ◌++◌, drop, length, reverse, IfOk, IsSorted, OnOk};
ghost use Rattle.profile_lists.specs.Rows.{AreRowsOf, first_way, rows_along, way_before};
ghost use Rattle.profile_lists.specs.Ways.{item_cmp};

use crate::item::{Item, Step};
use crate::shared::shared;
use crate::sums::go_back;
use refusal::NoMemory;
use std::alloc::Global;

/// A line of a profile: a beginning of an item's way, told by its last step.
#[derive(Clone, Copy, Debug, PartialEq, Eq)]
pub struct Row {
    /// How many steps stand above the last one.
    pub depth: usize,
    /// The last step.
    pub step: Step,
    /// The counts of all items whose ways begin so, added up; it stands still at 2^64 - 1.
    pub total: u64,
    /// The count of an item whose way begins so.
    pub count: u64,
    /// That item's key.
    pub key: u32,
}

/// The rows of items in order: one for each beginning of their ways, in order.
///
/// An item gives rows for what its way has beyond the way before it. Going from the last item to
/// the first, the totals of its beginnings are at hand.
///
/// # Errors
/// `NoMemory`.
pub fn rows_of(alloc: Global, items: &[Item]) -> Result<Vec<Row>, NoMemory>
    requires { IsSorted item_cmp items.now }
    ensures { IfOk result (λ rows. AreRowsOf items.now rows.items) }
{
    let mut rows = Vec::new(alloc);
    let mut sums = Vec::new(alloc);
    let mut left = items.len();
    while left > 0 {
        let behind = way_at(items, left);
        left -= 1;
        let item = &items[left];
        go_back(&mut sums, shared(behind, &item.way), item)?;
        let known = shared(way_before(items, left), &item.way);
        push_rows(&mut rows, item, &sums, known)?;
    }
    rows.reverse();
    Ok(rows)
}

/// The way of an item; behind the last one, a way without steps.
fn way_at(items: &[Item], i: usize) -> &[Step]
    ensures { result.now ≡ first_way (drop i items.now) }
{
    match items.get(i) {
        Some(item) => &item.way,
        None => &[],
    }
}

/// The way of the item before; before the first one, a way without steps.
fn way_before(items: &[Item], i: usize) -> &[Step]
    ensures { result.now ≡ way_before items.now i }
{
    if i == 0 { &[] } else { way_at(items, i - 1) }
}

/// Appends the rows of an item behind its first `from` steps, the deepest first.
fn push_rows(rows: &mut Vec<Row>, item: &Item, sums: &[u64], from: usize) -> Result<(), NoMemory>
    requires sums { length sums.now ≡ length item.now.way.items }
    requires within { from ≤ length item.now.way.items }
    ensures { OnOk result (rows.new.items ≡ rows.old.items
        ++ reverse (drop from (rows_along item.now 0 item.now.way.items sums.now))) }
{
    let mut depth = item.way.len();
    while depth > from {
        depth -= 1;
        rows.push(Row {
            depth,
            step: item.way[depth],
            total: sums[depth],
            count: item.count,
            key: item.key,
        })?;
    }
    Ok(())
}
