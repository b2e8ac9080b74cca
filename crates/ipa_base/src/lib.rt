//! Where the program's bytes come from and where they go.
//!
//! A `Source` gives bytes and a `Sink` takes them, a piece at a call, and both count their faults. `read_all`
//! reads a source to its end and `write_all` writes all of some bytes. Neither gives up by itself: a read fault
//! or a write fault comes only where the count of faults rose in that call. The source and the sink in memory
//! fail where they are told to, for tests; the other two stand over std's readers and writers.
//!
//! ```
//! let mut source = ReaderSource::new(reader);
//! let bytes = read_all(alloc, &mut source, 4_194_304)?;
//! let mut sink = WriterSink::new(writer);
//! write_all(&mut sink, &bytes)?;
//! ```
#![tactic(auto)]

mod calls;
mod fault;
mod memory_sink;
mod memory_source;
mod reader_source;
mod reading;
mod sink;
mod source;
mod writer_sink;
mod writing;

pub use fault::{Failed, ReadEnd, WriteFault};
pub use memory_sink::MemorySink;
pub use memory_source::MemorySource;
pub use reader_source::ReaderSource;
pub use reading::read_all;
pub use sink::Sink;
pub use source::Source;
pub use writer_sink::WriterSink;
pub use writing::write_all;
