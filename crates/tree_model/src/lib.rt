//! The functions of a file and the calls inlined into them, as the entries of its debugging
//! information tell of them: their names and first lines by the way of an entry, and their pieces
//! by the bases of its unit.
//!
//! They are members of lists, one for each function: the function and its calls in pre-order, with
//! depths. An inlined call or a function defined out of line leaves its name to another entry. The
//! way of an entry is the entry and those that it leads to one behind the other, and the first
//! attribute on the way counts. The pieces of an entry are the ranges of addresses at which its
//! code stands. The root of a unit says its base address, and what the indexes of texts, addresses
//! and range lists count from. Definitions in `specs/`, with examples in `proofs/`.
//!
//! Source: DWARF 5, sections 2.13.2, 2.17, 3.1.1, 3.3.1, 3.3.8, 7.26, 7.27 and 7.28; DWARF 4,
//! section 2.17; System V gABI, "Program Header".
#![tactic(auto)]

mod laws;

pub use laws::read_entries_go_down;
