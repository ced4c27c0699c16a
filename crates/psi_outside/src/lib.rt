//! The traits by which the product meets the outside, each with a count of faults: a source and a sink of bytes, files
//! that are read whole, and a gate that threads pass. Beside each stand an object in memory, which fails or holds back when
//! it is told to, and, but for the gate, an adapter over std. Over any source and sink, `read_all` reads to the end and
//! `write_all` writes a whole text.
//!
//! A call answers `Failed` only where the object's own count rose, so that a caller which is generic over the trait cannot invent a
//! fault. What a source, a sink or files tell at one moment is one value of the trait, `told` (the bytes that are left, written or
//! flushed, where they are told, and the count): a contract speaks of `S.told source.old` and `S.told source.new`. Over std's readers
//! and writers nothing is known of the bytes beyond what these tell.
#![tactic(auto)]

mod disk_files;
mod faults;
mod files;
mod gate;
mod held;
mod memory_files;
mod memory_sink;
mod memory_source;
mod plan;
mod reader_source;
mod reading;
mod sink;
mod source;
#[cfg(test)]
mod starved;
#[cfg(test)]
mod tests;
mod writer_sink;
mod writing;

pub use disk_files::DiskFiles;
pub use faults::{Failed, FileFault, ReadFault};
pub use files::Files;
pub use gate::{Gate, Open, Point};
pub use held::{Held, Hold};
pub use memory_files::MemoryFiles;
pub use memory_sink::MemorySink;
pub use memory_source::MemorySource;
pub use reader_source::ReaderSource;
pub use reading::read_all;
pub use sink::Sink;
pub use source::Source;
pub use writer_sink::WriterSink;
pub use writing::write_all;
