//! Lists of ids as sets: the union, the intersection and the difference of two lists that rise, each in one pass.
//!
//! Ids are kept as numbers that rise as the ids do, so all work is on numbers. Which lists rise stands in
//! `specs/Rising.antt`, and what a list is made rising into in `xod_base`, `specs/Evaluation.antt`.
#![tactic(auto)]

mod laws;
mod order;
mod sets;

pub use laws::{rising_lists_rise, rising_parts_suffice};
pub use order::{rises, rising_of};
pub use sets::{intersect, minus, union};
