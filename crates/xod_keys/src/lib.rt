//! The keys and values of a store's trees, written and read, and single writes of them.
//!
//! Which bytes they are stands in `xod_tables`, `specs/Keys.antt`, and what is read of bytes in `specs/Pieces.antt`.
#![tactic(auto)]

mod pushing;
mod reading;
mod writing;

pub use pushing::{push_put, push_removed};
pub use reading::{
    read_entry, read_id, read_link, read_name, read_next, read_number, read_prop, read_value,
};
pub use writing::{
    entity_key, index_key, link_key, name_key, next_key, number_key, property_key, stored_value,
};
