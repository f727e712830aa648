//! Where the program's bytes come from and go to: sources, sinks, and whole reads and writes over them.
//!
//! A source tells what is left of its bytes, and a sink what was written, where that is known. Both count their
//! failures. There are sources and sinks in memory, some of whose calls fail or move one byte at a time, and
//! sources and sinks over the readers and writers of std.
#![tactic(auto)]

mod calls;
mod drip;
mod memory_sink;
mod memory_source;
mod streams;
mod system;
mod whole;

pub use drip::{DripSink, DripSource};
pub use memory_sink::{MemSink, SoundSink};
pub use memory_source::{MemSource, SoundSource};
pub use streams::{Failed, Sink, Source, Stopped};
pub use system::{StdSink, StdSource};
pub use whole::{ReadError, read_all, write_all};
