//! The row of an address in the line table of one unit, and where rows change.
//!
//! `RowTable::make` keeps the live sequences of a table's rows, `row_at` finds the row of an
//! address by two binary searches, and `cuts` are the addresses between which it does not change.
//!
//! Source: DWARF 5, section 6.2.2.
#![tactic(auto)]

mod cuts;
mod row_data;
mod sequence;
mod sequences;
mod table;

pub use row_data::RowData;
pub use table::RowTable;
