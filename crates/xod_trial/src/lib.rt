//! What tests of a store are made of: acts as tables give them, transactions that commit, and the files of a volume.
//!
//! No program stands on this crate.
#![tactic(auto)]

mod files;
mod given;
mod txn;
mod worked;

pub use files::{content, volume_with};
pub use given::{Datum, Given, Id, act_of, id_of, name_of, value_of};
pub use txn::{TARGET, commit, make_acts, snapshot_of};
pub use worked::{ONE_ENTITY, SEALED};
