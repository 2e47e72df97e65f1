//! The environment of a store: its newest commit over the files of a volume, and snapshots to read it by.
//!
//! The crates above open an `Env` on a volume, read its newest commit through a `Snapshot`, flush the touched keys of a
//! transaction to it, and learn from `EnvError` and `FlushError` why a call failed. What a snapshot has stands in
//! `xod_snapshot`, what an environment is open on and what a crash leaves of it in `specs/Envs.antt`.
#![tactic(auto)]

mod bodies;
mod count;
mod env;
mod error;
mod flush;
mod flushed;
mod kept;
mod laws;
mod lend;
mod opening;
mod parts;
mod reads;
mod steady;

pub use env::Env;
pub use error::{EnvError, FlushError};
pub use flushed::Flushed;
pub use laws::bodies_are_lent_whole;
pub use steady::settled_volumes_are_steady;
pub use xod_snapshot::{Snapshot, pages_change_no_tree};
