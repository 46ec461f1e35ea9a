// The totals of the ways that an item begins with.
ghost use Rattle.std.specs.Prelude.{◌≡◌, length, OnOk, take};
ghost use Rattle.profile_lists.specs.Rows.{padded, raised};

use crate::item::Item;
use refusal::NoMemory;

/// Goes from the totals of one item on to those of the item before it, which has `shared` steps in
/// common with it.
pub fn go_back(sums: &mut Vec<u64>, shared: usize, item: &Item) -> Result<(), NoMemory>
    ensures { OnOk result (sums.new.items
        ≡ raised item.now.count
        (padded (length item.now.way.items) (take shared sums.old.items))) }
{
    sums.truncate(shared);
    pad(sums, item.way.len())?;
    raise(sums, item.count);
    Ok(())
}

/// Appends zeros up to a length.
fn pad(sums: &mut Vec<u64>, len: usize) -> Result<(), NoMemory>
    ensures { OnOk result (sums.new.items ≡ padded len sums.old.items) }
{
    for _ in sums.len()..len {
        sums.push(0)?;
    }
    Ok(())
}

/// Adds a count to each sum. A sum stands still at its type's end.
fn raise(sums: &mut [u64], count: u64)
    ensures { sums.new ≡ raised count sums.old }
{
    for sum in sums.iter_mut() {
        *sum = sum.saturating_add(count);
    }
}
