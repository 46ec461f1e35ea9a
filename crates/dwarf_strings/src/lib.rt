//! The texts and addresses that values of debugging information mean.
//!
//! A text is a slice of the file, and no call takes memory. A value that means nothing is answered
//! by the first cause that stands in the way.
//!
//! Source: DWARF 5, sections 7.26 and 7.27.
#![tactic(auto)]

mod section;
mod unit;
mod value;

pub use section::{cursor_at, slot};
pub use unit::{Bases, Texts};
pub use value::{address, text};
