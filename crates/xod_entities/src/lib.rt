//! The entities in a store's trees, and the next local number of each type.
#![tactic(auto)]

mod reading;
mod writing;

pub use reading::{has, ids_of, next_local};
pub use writing::{add_id, push_id, push_id_gone, remove_id};
