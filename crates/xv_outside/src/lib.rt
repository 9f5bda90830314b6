//! The outside of xv: where a script comes from, where answers go, and where files are read.
//!
//! Each object counts the failures of its own calls. Code that is generic over the traits can't
//! raise that count, so a status that comes only where the count rose has a cause outside.
#![tactic(auto)]

mod adapters;
mod calls;
mod directory;
mod files;
mod memory;
mod outside;

pub use adapters::{ReaderSource, StdSink, StdSource, WriterSink};
pub use directory::DirFiles;
pub use files::{MemFile, MemFiles};
pub use memory::{MemSink, MemSource};
pub use outside::{Failed, FetchFault, Fetched, Files, Sink, Source};

#[cfg(test)]
mod tests;
