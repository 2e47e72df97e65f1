//! The system: what a folder needs of the runtime, and what the system answered as an answer of a volume.
//!
//! Nothing is counted here.
use std::fs::File;
use std::io;
use std::io::ErrorKind;
use std::rt::Files;
use xod_volume::VolumeError;

/// A handle of the runtime that reaches files of the system and memory.
pub trait System: Files<File = File> + AllocGlobal + Clone + Drop {}

impl<R: Files<File = File> + AllocGlobal + Clone + Drop> System for R {}

/// The answer, where every error of the system is a failure.
pub fn or_failed<T>(answer: io::Result<T>) -> Result<T, VolumeError> {
    match answer {
        Ok(value) => Ok(value),
        Err(_) => Err(VolumeError::Failed),
    }
}

/// The answer, where want of memory is told apart from every other error.
pub fn or_memory<T>(answer: io::Result<T>) -> Result<T, VolumeError> {
    match answer {
        Ok(value) => Ok(value),
        Err(error) if error.kind() == ErrorKind::OutOfMemory => Err(VolumeError::Memory),
        Err(_) => Err(VolumeError::Failed),
    }
}
