//! What a line number program says: its header, its operations, the rows that they add, and the
//! places at which it is refused; and the row of an address in the line table of a unit.
//!
//! Definitions in `specs/`, with examples in `proofs/`, and laws about them as functions with an
//! empty body. `Operation` and `Row` are the two types that they speak of.
//!
//! Source: DWARF 5, sections 6.2 to 6.2.5.
#![tactic(auto)]

mod laws;
mod operation;
mod row;

pub use laws::{read_is_spelled, read_rows_are_rows, rows_are_read, spelled_is_read};
pub use operation::Operation;
pub use row::Row;
