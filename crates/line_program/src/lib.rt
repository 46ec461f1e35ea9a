//! The rows of the line number programs of `.debug_line`.
//!
//! `rows` reads one program: its header, and its operations one by one, each of which moves the
//! registers of a machine or adds a row of them. `STANDARD` and `EXTENDED` are the opcodes that it
//! knows.
//!
//! Source: DWARF 5, sections 6.2.2 to 6.2.5.
#![tactic(auto)]

mod fault;
mod fields;
mod header;
mod machine;
mod opcode;
mod program;
mod registers;
mod run;
mod tables;

pub use line_model::Row;
pub use run::rows;
pub use tables::{EXTENDED, STANDARD};
