//! Handles: queries in normal form, told apart by the bytes of their text.
//!
//! Queries that differ in the case of values, or in the order, the nesting or the repetition of what they join, have
//! one handle. The rule stands in `specs/Forms.antt`, and what it is good for in `specs/Laws.antt`.
#![tactic(auto)]

mod boxing;
mod folding;
mod handle;
mod join;
mod laws;
mod leaves;
mod named;
mod normal;
mod parts;
mod printed;
mod words;

pub use handle::Handle;
pub use laws::{normal_answers_the_same, normal_is_its_own, normal_stays_named, texts_tell};
pub use named::is_named;
