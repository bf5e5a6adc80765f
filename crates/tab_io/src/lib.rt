//! Where bytes come from and where they go.
//!
//! A contract sees the bytes, where they are told, and a count of faults.
#![tactic(auto)]

mod error;
mod memory;
mod memory_sink;
mod memory_source;
mod reading;
mod sink;
mod source;
mod std_sink;
mod std_source;
mod writing;

pub use error::{Failed, ReadAllError, WriteFault};
pub use memory_sink::MemorySink;
pub use memory_source::MemorySource;
pub use reading::{read_all, read_bytes};
pub use sink::Sink;
pub use source::Source;
pub use std_sink::StdSink;
pub use std_source::StdSource;
pub use writing::write_all;
