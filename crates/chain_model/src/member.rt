use item_lists::Items;
use key_types::NameId;

/// A function, or a call that the compiler inlined, with code of its own.
///
/// Members stand in a list in pre-order: a member stands below the last one before it that is less
/// deep by one. One of depth 0 is a function and stands below none.
// Why: Members are one flat list in pre-order with depths, so that nothing recurs over depth. A
// member more than one deeper than the one before stands below none, so clauses hold of every list.
#[derive(Debug, Drop)]
pub struct Member {
    /// How many members it stands below: 0 for a function, at most 255 for an inlined call.
    pub depth: u8,
    /// The index of its unit among the units.
    pub unit: u32,
    /// The name of the function, or of the function that was inlined.
    pub name: Option<NameId>,
    /// The line in which the function, or the function that was inlined, starts.
    pub start: u64,
    /// The line of the call, 0 for a function.
    pub line: u64,
    /// The discriminator of the call modulo 2^32, 0 for a function.
    pub disc: u32,
    /// The ranges of its code, each from its first address to the one behind its last.
    pub pieces: Items<(u64, u64)>,
}
