//! What holds of each binary and its samples: that the lines of a profile can tell its ways and
//! counts.
#![tactic(auto)]

mod laws;

pub use laws::{profiles_can_be_told, rows_have_discriminators};
