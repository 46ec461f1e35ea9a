//! Reads by a cursor whose faults are told as places of the binary.
//!
//! `specs/` has readers: what a file says from a cursor on, or the place at which it is refused.
//! The formats that are read step by step, where a step is there only if those before it pass, are
//! defined by them.
#![tactic(auto)]

mod read;

pub use read::{byte, field_u16, field_u32, field_u64, kind_of, place_of, sleb, uleb};
