//! Byte streams that count their faults: sources and sinks over memory and over the standard library's readers and
//! writers.
#![tactic(auto)]

mod memory;
mod never;
mod standard;
mod streams;

pub use memory::{MemSink, MemSource};
pub use never::{NeverSink, NeverSource};
pub use standard::{StdSink, StdSource};
pub use streams::{Sink, Source, put_all};
