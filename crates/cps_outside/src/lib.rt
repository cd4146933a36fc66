//! The outside of the sequencer: folders that give files, sinks that take output, and gates that pieces of work pass.
//! Each is a trait, with an implementation in memory that fails where it is told to, and a real one.
#![tactic(auto)]

mod folders;
mod gates;
mod memory_folder;
mod memory_sink;
mod real_folder;
mod real_sink;
mod sinks;
mod sources;

pub use folders::{Folder, LoadFault};
pub use gates::{FreeGate, Gate};
pub use memory_folder::MemoryFolder;
pub use memory_sink::MemorySink;
pub use real_folder::{OpenedFiles, Opener, RealFolder, SystemFiles};
pub use real_sink::RealSink;
pub use sinks::{Sink, WriteFailed};
pub use sources::{ReaderSource, Source, read_pieces};
