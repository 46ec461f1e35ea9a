//! A list that is made once and then read: what a field of a public type holds.
#![tactic(auto)]

mod items;

pub use items::Items;
