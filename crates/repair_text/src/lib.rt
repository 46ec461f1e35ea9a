//! Repair texts, written and read: for each function of a block text counts that repair its
//! weights, with prices, or a cut that shows that there are none.
#![tactic(auto)]

mod line;
mod open;
mod reading;
mod repair;
mod said;
mod unknown;
mod writing;

pub use reading::read;
pub use repair::Repair;
pub use unknown::unknown_weights;
pub use writing::write;
