//! What follows from how profiles are summed: that their order is no matter.
#![tactic(auto)]

mod laws;

pub use laws::order_is_no_matter;
