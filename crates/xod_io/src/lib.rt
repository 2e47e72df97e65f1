//! Where the program's bytes come from, and where they go.
//!
//! The shell is handed a `Source` and a `Sink` by its caller and reads or writes them whole, by `read_all` and
//! `write_all`. Those in memory tell their bytes and fail at chosen calls; those over the standard streams tell
//! nothing. Each counts its faults, and no call answers `Failed` where the count did not rise. No file, no clock and
//! no thread here. The words of the clauses stand in `specs/`.
#![tactic(auto)]

mod in_memory;
mod outside;
mod plan;
mod standard;
mod whole;

pub use in_memory::{MemorySink, MemorySource};
pub use outside::{Sink, Source};
pub use standard::{StdSink, StdSource};
pub use whole::{TakeError, read_all, write_all};
