// The numbers of a profile text.
use item_lists::Items;
use key_types::{KeyId, NameId};

/// What a number is of.
#[derive(Clone, Copy, Debug, PartialEq, Eq)]
pub enum What {
    /// How often a function was entered.
    Head(NameId),
    /// The count of a key.
    Count(KeyId),
    /// How often a function was called from a key.
    Target(KeyId, NameId),
}

/// A number of a profile text.
#[derive(Clone, Copy, Debug, PartialEq, Eq)]
pub struct Item {
    /// The line on which it stands, from 1.
    pub line: u64,
    pub what: What,
    pub times: u64,
}

/// What a profile text says: its numbers, in the order of the text.
#[derive(Debug, Drop)]
pub struct Profile {
    pub items: Items<Item>,
}
