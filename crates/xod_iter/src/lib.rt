//! The answers of queries over trees that are the tables of rows.
//!
//! A form without parts reads what belongs to its answer alone (`xod_reader`); the others are made of the answers of
//! their parts (`xod_forms`), of which each entity is read once at most. What a query answers stands in `xod_base`,
//! `specs/Evaluation.antt`.
#![tactic(auto)]

mod evaluation;
mod links;
mod sorting;

pub use evaluation::evaluate;
