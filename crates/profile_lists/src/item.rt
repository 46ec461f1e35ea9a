// Ways, and the counts at their ends.
ghost use Rattle.std.specs.Prelude.{IsPermutation, IsSorted, OnOk};
ghost use Rattle.profile_lists.specs.Ways.{item_cmp};

use std::alloc::AllocError;

/// What a step leads to, in the order in which the lines below a function stand.
#[derive(Clone, Copy, Debug, PartialEq, Eq, PartialOrd, Ord)]
pub enum Kind {
    /// A function that was compiled.
    Function,
    /// A line of the function above.
    Body,
    /// A call that was inlined.
    Call,
}

/// A step of a way. A function has offset and discriminator 0, a body line has rank 0.
#[derive(Clone, Copy, Debug, PartialEq, Eq, PartialOrd, Ord)]
pub struct Step {
    pub kind: Kind,
    pub offset: u16,
    pub disc: u32,
    /// How many functions stand before this one among those of its kind.
    pub rank: u32,
}

/// The way of a key with the key's count, or that of a function alone.
#[derive(Debug, PartialEq, Eq, PartialOrd, Ord, Drop)]
pub struct Item {
    /// At least one step, the outermost first.
    pub way: Vec<Step>,
    pub count: u64,
    /// The number of the key.
    pub key: u32,
}

/// Puts items into the order of their ways.
pub fn sort_items(items: &mut Vec<Item>) -> Result<(), AllocError>
    ensures same { OnOk result (IsPermutation items.old.items items.new.items) }
    ensures sorted { OnOk result (IsSorted item_cmp items.new.items) }
{
    items.sort()
}
