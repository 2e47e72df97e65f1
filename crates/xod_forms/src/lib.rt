//! The forms of queries that are made of the answers of their parts.
//!
//! Each is one function over lists of ids. What a query answers stands in `xod_base`, `specs/Evaluation.antt`.
#![tactic(auto)]

mod order;
mod parts;

pub use order::{Ranked, sorted};
pub use parts::{in_both, in_either, in_first, skipped, taken};
