//! The device under a store: the traits of volumes and leases, and a volume in memory that knows every crash.
#![tactic(auto)]

mod body;
mod disk;
mod fate;
mod history;
mod laws;
mod lease;
mod memory;
mod patch;
mod piece;
mod pieces;
mod plan;
mod table;
mod volume;
mod walk;

pub use body::Body;
pub use fate::Crash;
pub use history::{Call, Deed};
pub use laws::reads_may_be_left;
pub use lease::MemoryLease;
pub use memory::MemoryVolume;
pub use patch::Patch;
pub use table::FileTable;
pub use volume::{Lease, Volume, VolumeError};
