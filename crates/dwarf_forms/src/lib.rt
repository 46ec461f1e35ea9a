//! The forms of debugging information: the value that stands at a cursor, for the code of its form.
//!
//! `FORMS` are the codes of the standard's table, `kind` says which of them are read, and
//! `read_value` reads a value of one. No call takes memory, and a fault leaves the cursor where it
//! stood.
//!
//! Source: DWARF 5, sections 7.5.5 and 7.5.6; DWARF 4, section 7.5.4.
#![tactic(auto)]

mod form;
mod laws;
mod read;
mod table;
mod value;

pub use form::{FormKind, kind};
pub use laws::forms_ascend;
pub use read::{read_kind, read_value};
pub use table::{FORMS, FormTable};
pub use value::{FormFault, UnitShape, Value};
