//! What an act changes, and what that writes into the trees, found out over any view of trees. Nothing is changed here.
//!
//! Which changes an act has, and in which order refusals come, stands in `xod_journal`, `specs/Changes.antt`; what a
//! change writes in `xod_writes`, `specs/Changes.antt`; what a plan is in `specs/Plans.antt`.
#![tactic(auto)]

mod delete;
mod found;
mod links;
mod making;
mod new;
mod plan;
mod set;

pub use plan::{Plan, expand};
