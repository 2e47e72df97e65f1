//! A volume over real files: one folder with a file for each number.
//!
//! It tells nothing of what its files hold. Counts of faults, leases and references are told, as `Volume` asks.
#![tactic(auto)]

mod counted;
mod file;
mod folder;
mod lease;
mod lent;
mod names;
mod outside;
mod store;
mod transfer;
mod volume;

pub use lease::FolderLease;
pub use volume::FolderVolume;
