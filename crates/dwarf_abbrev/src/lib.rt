//! Abbreviation tables: what the entries of one code have, and in which forms; the place of a code
//! in a table.
//!
//! `read_table` reads the table that stands at the start of a piece, and the `Abbrevs` that it
//! answers finds an abbreviation by its code.
//!
//! Source: DWARF 5, section 7.5.3.
#![tactic(auto)]

mod abbrev;
mod attr;
mod codes;
mod rows;
mod table;

pub use abbrev::Abbrev;
pub use attr::Attr;
pub use table::{Abbrevs, read_first, read_table};
