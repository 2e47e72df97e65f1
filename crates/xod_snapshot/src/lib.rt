//! Snapshots: the trees of a commit, read out of files that are lent.
//!
//! The environment makes them of its newest roots, and an opening of those that it found. What a snapshot has stands in
//! `specs/Snapshots.antt`.
#![tactic(auto)]

mod kept;
mod laws;
mod reads;
mod snapshot;

pub use kept::{Holding, Kept};
pub use laws::pages_change_no_tree;
pub use snapshot::Snapshot;
