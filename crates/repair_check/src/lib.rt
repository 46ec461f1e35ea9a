//! Which line of a repair text is the first that does not keep what it promises.
//!
//! It stands on `dual_check` and not on the solver: who gets a repair from elsewhere need not trust
//! whoever made it.
#![tactic(auto)]

mod failed;

pub use failed::failed_line;
