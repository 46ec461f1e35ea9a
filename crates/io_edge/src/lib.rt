//! The edge between `pgo` and the outside: the traits `Inputs` and `Sink` with their counts of
//! faults, files in memory and of the system, and what reads and writes whole ones.
//!
//! The program reads its files through `Inputs` and writes its output through `Sink`, by
//! `read_whole` and `write_all`. `FileInputs` and `StdSink` are the files and writers of the
//! system. `MemoryInputs` and `MemorySink` are their like in memory, which tell their bytes and
//! fail at chosen calls.
#![tactic(auto)]

mod file_inputs;
mod inputs;
mod memory_inputs;
mod memory_sink;
mod sink;
mod std_sink;
mod whole;

pub use file_inputs::FileInputs;
pub use inputs::{Inputs, OpenFailed, ReadFailed};
pub use memory_inputs::{Fail, MemoryInputs, StoredFile};
pub use memory_sink::MemorySink;
pub use sink::{Sink, WriteFailed};
pub use std_sink::StdSink;
pub use whole::{ReadStop, WriteFault, read_whole, write_all};
