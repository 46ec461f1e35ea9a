//! Ranges of addresses that may lie over one another: made disjoint so that the first one counts,
//! the owner of an address, and spans put into the frames of others.
//!
//! A `Span` is a range with the number of its owner. Of several spans that hold an address the
//! first one in the list counts. `disjoint` makes from any spans a list that ascends, has no two
//! spans over one another, and has the same owner at each address; `owner_at` searches such a
//! list, and `framed` puts one into the frames of another.
#![tactic(auto)]

mod cover;
mod frames;
mod overlay;
mod search;
mod span;

pub use cover::disjoint;
pub use frames::framed;
pub use search::owner_at;
pub use span::Span;
