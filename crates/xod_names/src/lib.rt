//! The lists of names in a store's trees: types, properties and links, each name with its number.
#![tactic(auto)]

mod reading;
mod writing;

pub use reading::{count, name_of, names, number_of};
pub use writing::{add_name, push_name};
