//! The log of a store: blocks are appended to a file, sealed so that they outlive a crash, and the file is rolled.
//!
//! A log keeps numbers only; the bytes are the volume's. When a log stands on a volume is said in `specs/Standing.antt`,
//! what its calls leave in `specs/Calls.antt`; docs/FORMATS.md has the bytes.
#![tactic(auto)]

mod device;
mod error;
mod laws;
mod log;
mod mark;
mod pair;

pub use error::LogError;
pub use laws::{
    nothing_is_sealed_without_marks, numbers_are_read_back, sealed_of_a_longer_body,
    stands_after_opening, stands_beside_an_append, stands_beside_other_files,
};
pub use log::Log;
