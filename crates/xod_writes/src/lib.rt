//! What each change of the rows writes into the trees that are their tables: definitions and their laws; nothing here
//! runs.
//!
//! A transaction makes row changes and writes keys. That both come to the same is said here, for each of the five
//! changes and for lists of them; the writes stand in `specs/Changes.antt`.
#![tactic(auto)]

mod laws;

pub use laws::{tables_follow_all_changes, tables_follow_changes};
