//! Finite maps carried into other finite maps, and indexes of them: definitions and their laws; nothing here runs.
//!
//! A store keeps what it holds as trees of bytes. Each of these is the image of a map that knows nothing of bytes, so
//! what changes the one and the other alike is said here once, for all of them.
#![tactic(auto)]

mod laws;

pub use laws::{
    changes_are_indexed, images_are_found, lists_are_carried, look_ups_decide,
    new_entries_are_indexed, puts_are_carried, removals_are_carried, removals_are_indexed,
    tables_come_back,
};
