//! The outside of the kernel: sources and sinks, real and in memory, and the list of counts of its work.
#![tactic(auto)]

mod buffer;
mod calls;
mod memory;
mod memory_sink;
mod memory_source;
mod name;
mod ports;
mod std_sink;
mod std_source;
mod work;

pub use buffer::put;
pub use memory::Memory;
pub use memory_sink::MemorySink;
pub use memory_source::MemorySource;
pub use name::{begins_name, continues_name, is_name};
pub use ports::{Failed, Sink, Source};
pub use std_sink::StdSink;
pub use std_source::StdSource;
pub use work::{Ledger, NoLedger, Work};
