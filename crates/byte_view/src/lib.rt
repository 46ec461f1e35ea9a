//! Cursors over the bytes of one file, whose slices are the file's bytes from their place.
//!
//! A `Part` is a piece of a file, and a `Cur` reads it from its first byte on: fields of fixed
//! size, the lowest byte first, LEB128 numbers, texts up to a NUL, and runs of bytes. What it hands
//! out are slices of the file's bytes from its place, which live as long as the file's buffer. No
//! call takes memory, and a refusal leaves the cursor where it stood.
//!
//! The numbers are those of DWARF 5, section 7.6, "Variable Length Data", and of little-endian ELF.
#![tactic(auto)]

mod cur;
mod fault;
mod laws;
mod leb;
mod part;

pub use cur::Cur;
pub use fault::ViewFault;
pub use laws::{
    no_spelling_begins_another, passed_bytes_are_the_files, read_is_spelled, spelled_is_read,
};
pub use part::Part;
