//! A transaction's own changes over a view of trees: touched keys, each with a value or a removal mark.
//!
//! An `Overlay` holds them, and `Overlaid` is the view of an overlay over another view. What a tree is with touched
//! keys stands in `specs/Marks.antt`.
#![tactic(auto)]

mod laws;
mod merging;
mod overlaid;
mod overlay;
mod piece;
mod rest;
mod sorted;
mod write;
mod writing;

pub use laws::{
    puts_show, removals_show, touched_keys_decide, untouched_trees_are_those_below,
    walks_meet_all_touches,
};
pub use overlaid::Overlaid;
pub use overlay::{Overlay, Touched};
pub use write::{Write, WriteList};
