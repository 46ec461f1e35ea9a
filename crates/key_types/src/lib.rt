//! The names and keys that the places of addresses are told by, what a map of places answers, and
//! what segments of one key tell of an address.
//!
//! A key is a place in a program as a profile names it: a function, the calls inlined into it, and
//! a line of the innermost with its discriminator. `Names` and `Keys` give each a number, so that
//! the rest of the program compares numbers. `Places` is any map from addresses to keys, and
//! `split` takes a discriminator apart. Segments are parts of a program, each of addresses that
//! have one key and one factor: `key_at` finds that of an address by binary search.
#![tactic(auto)]

mod discriminator;
mod ids;
mod key;
mod keys;
mod laws;
mod name;
mod names;
mod places;
mod search;
mod split_laws;

pub use discriminator::split;
pub use ids::{KeyId, NameId};
pub use key::{Frame, Key};
pub use keys::Keys;
pub use laws::one_number_each;
pub use name::is_name;
pub use names::Names;
pub use places::{Places, Seg, Where};
pub use search::key_at;
pub use split_laws::split_reads_what_is_packed;
