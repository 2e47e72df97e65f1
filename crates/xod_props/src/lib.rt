//! The properties in a store's trees, and the index by which entities are found by their values.
#![tactic(auto)]

mod reading;
mod writing;

pub use reading::{NumberedValues, ids_between, value_of, values_of};
pub use writing::{change, push_change};
