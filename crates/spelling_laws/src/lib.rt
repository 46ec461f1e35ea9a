//! What follows from how a profile is written and read: that its text says what was counted, so
//! that a merge of it alone writes it again.
#![tactic(auto)]

mod laws;

pub use laws::{line_text_is_read, merge_writes_again, text_is_read_back};
