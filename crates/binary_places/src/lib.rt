//! A whole binary, judged once: its first bad place, or what tells the place of every address; and
//! the places of the functions that are asked for. The one way from a file to places.
//!
//! `read` calls the readers of its parts in the order in which a binary is judged. The `Binary`
//! that it answers knows which function holds each address. Who asks it for places marks the
//! functions whose places it needs (`Asked`), and `places` makes the names, the keys and the map of
//! these.
#![tactic(auto)]

mod binary;
mod laws;
mod programs;
mod sections;
mod shared;
mod tables;

pub use binary::{Binary, Placed, places, read};
pub use context_map::{Asked, Functions};
pub use laws::{functions_are_told, places_are_shown};
