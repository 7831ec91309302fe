//! What a command reads from and writes to: files that are read whole, and sinks that take bytes.
#![tactic(auto)]

mod counts;
mod files;
mod memory_files;
mod memory_sink;
mod sink;
mod std_files;
mod std_sink;

pub use files::{Files, ReadAnswer};
pub use memory_files::MemoryFiles;
pub use memory_sink::{FailAt, MemorySink};
pub use sink::{PutAnswer, Sink};
pub use std_files::StdFiles;
pub use std_sink::StdSink;
