//! What `main` of both programs does: it reads the program's words, answers those that ask about
//! the program itself, hands the others to its top call with the system's files and the standard
//! output, prints the status on the error output, and ends with the status's code.
#![tactic(auto)]

mod main_call;
mod words;

pub use main_call::{Called, main_of};
