//! The loads that a branch text tells of, in their order, and a search for the last one that holds
//! an address; and the segments of a program, with a search for the first one that has an offset.
//!
//! A text has some loads in front of many samples, or some thousand with samples between them. So
//! new loads are looked through one by one, and once that has cost as much as an index, they are
//! laid over those that are indexed. Segments are known at the start, and indexed then.
//!
//! Source: perf-script(1), `--show-mmap-events`; System V gABI, "Program Header".
#![tactic(auto)]

mod index;
mod search;
mod segments;

pub use index::LoadIndex;
pub use segments::SegmentIndex;
