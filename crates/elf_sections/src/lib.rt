//! The sections, the ranges and the segments of code of an ELF64 file. Sections are read where they
//! stand: nothing of them is copied.
//!
//! `read` judges the file's headers, and puts the segments of code in order; the `Elf` that it
//! answers looks a section up by its name and says which ranges of addresses are code. Memory is
//! taken for the segments of code alone: by `read`, and by `Elf::loads`, which lists them.
//!
//! Source: System V gABI, "ELF Header", "Sections", "String Table", "Program Header".
#![tactic(auto)]

mod elf;
mod entries;
mod fields;
mod file_header;
mod header_0;
mod judgement;
mod names;
mod program_header;
mod reach;
mod section_header;
mod section_table;

pub use elf::{Elf, read};
