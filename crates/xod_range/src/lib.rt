//! Walks over the part of a tree between two keys.
//!
//! A reader of tables asks for the entries whose keys begin alike, or lie between two keys; all of them go this way. What
//! a walk gives stands in `specs/Ranges.antt`, what a reader answers in `specs/Reads.antt`.
#![tactic(auto)]

mod range;

pub use range::{NOWHERE, Range};
