//! What readers of a store's trees read, and that in the tables of rows it is what the rows have. Nothing here runs.
//!
//! A reader knows one tree, and one key or a range of keys: what it reads there is in `specs/Readings.antt`.
#![tactic(auto)]

mod laws;

pub use laws::{
    entities_of_rows_are_read, keys_are_bounds, links_of_rows_are_read, names_of_rows_are_read,
    props_of_rows_are_read,
};
