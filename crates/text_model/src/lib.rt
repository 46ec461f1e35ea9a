//! What a text is: its lines, the fields of a line, and numbers in text, both ways.
//!
//! Definitions alone, in `specs/`, and laws about them as functions with an empty body.
#![tactic(auto)]

mod laws;

pub use laws::{
    contains_is_part, decimal_text_is_read, fields_join, fields_split, hex_text_is_read,
    lines_join, lines_split, signed_text_is_read,
};
