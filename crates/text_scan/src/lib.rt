//! Texts read and written: the lines of a text, the fields of a line, and numbers both ways.
//!
//! `Lines` and `Fields` are iterators that lend slices of the text, so reading takes no memory.
//! A contract sees each as the list of what is left. `decimal`, `wide`, `signed`, `hex` and
//! `prefixed` read a number or say why there is none, and `push_number`, `push_signed` and
//! `push_hex` append a number's text.
#![tactic(auto)]

mod decimals;
mod fields;
mod lines;
mod read;
mod write;

pub use decimals::{decimal, signed, wide};
pub use fields::{Fields, first_blank, first_filled, is_blank, is_blank_line};
pub use lines::{Line, Lines};
pub use read::{NumberFault, hex, prefixed};
pub use write::{push_hex, push_number, push_signed};
