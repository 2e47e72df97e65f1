//! The tests, a module for each subject.
mod files;
mod folder;
mod log;
mod records;
mod source_and_sink;
mod volume;
