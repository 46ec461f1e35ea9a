//! Block texts, read: the functions of a binary as basic blocks and the edges between them.
//!
//! The text stands in for the disassembly: `block` lines say which addresses run together, `edge`
//! lines where the program can go on. `read` gives the functions or the first bad line.
#![tactic(auto)]

mod draft;
mod fun;
mod rising;
mod said;
mod taken;
mod text;
mod ways;

pub use block_model::{Block, Bound, Edge, Weight};
pub use fun::Fun;
pub use said::{count_of, place_of};
pub use text::read;
