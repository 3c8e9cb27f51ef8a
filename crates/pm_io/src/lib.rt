//! Where bytes come from and where they go: sources and sinks that may fail, the lines of a source, and lines that go
//! out by one call.
#![tactic(auto)]

mod chunk;
mod laws;
mod line_buffer;
mod lines;
mod memory;
mod sink;
mod source;
mod standard;

pub use laws::{all_lines_law, one_call_law};
pub use line_buffer::{LINE_ROOM, LineBuffer};
pub use lines::{Line, LineFault, Lines};
pub use memory::{MemSink, MemSource};
pub use sink::{Sink, SinkFail, write_all};
pub use source::{Failed, Source};
pub use standard::{StdSink, StdSource};
