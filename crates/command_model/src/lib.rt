//! What the program does: the words of a command, its files in order with the first bad place among
//! them, and what each command writes.
//!
//! Definitions alone, in `specs/`.
#![tactic(auto)]
