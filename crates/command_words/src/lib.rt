//! The words of a command, and the command that they spell.
//!
//! The program's name is none of them. Words that spell no command are told without memory. What
//! `pgo-cold` is asked for is told by `parse_cold`.
#![tactic(auto)]

mod cold;
mod command;
mod options;

pub use cold::{Cold, parse_cold};
pub use command::{Command, MAX_PARTS, Part, parse};
pub use options::Options;
