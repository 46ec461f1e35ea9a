//! The functions of a file with the calls inlined into them, as they are collected entry by entry.
//!
//! `SoFar` keeps a list of members for each function, and for each entry down to the last one the
//! frame that says where it stands among them. In the end all lists are one. A law says that these
//! are the members that the depths of the entries say.
//!
//! Source: DWARF 5, sections 3.3.1 and 3.3.8.
#![tactic(auto)]

mod frame;
mod functions;
mod laws;
mod so_far;

pub use frame::EntryFrame;
pub use laws::collected_are_members;
pub use so_far::SoFar;
