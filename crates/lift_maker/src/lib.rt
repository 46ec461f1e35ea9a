//! What `lift` writes: what was built of a binary and a block text, read as a profile and as
//! repairs, tested as `check` tests it, and written as a profile with the repaired counts of blocks
//! on its lines.
#![tactic(auto)]

mod maker;

pub use maker::{Lifted, lift};
