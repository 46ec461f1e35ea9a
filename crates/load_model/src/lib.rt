//! Segments of a program as they are loaded, and the address at which a byte of its file stands.
//!
//! Definitions in `specs/`, with examples in `proofs/`. The type of a segment stands here as well.
//!
//! Source: System V gABI, "Program Header", "Program Loading".
#![tactic(auto)]

mod load_segment;

pub use load_segment::LoadSegment;
