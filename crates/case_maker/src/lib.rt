//! Generated cases: a binary, a branch text and a block text of one program, as large as one likes,
//! for tests and measurements.
//!
//! The program has `n` functions of 64 bytes, side by side from 0x401000 on, each called by the
//! next one and the last by the first. docs/FORMATS.md says what stands in the files.
#![tactic(auto)]

mod abbrev;
mod blocks;
mod bytes;
mod case;
mod dwarf;
mod elf;
mod function;
mod info;
mod line;
mod samples;

pub use case::{CasePart, CaseStop, make};
pub use function::MAX_FUNCTIONS;
