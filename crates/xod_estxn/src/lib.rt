//! Transactions over a view of trees that are the tables of rows.
//!
//! A transaction keeps its own changes beside the view, as row changes and as touched keys, and what it sees are the
//! tables of its rows. What its type keeps stands in `specs/Txns.antt`; what acts, shows and queries answer in
//! `xod_journal`, `specs/Locals.antt`.
#![tactic(auto)]

mod answer;
mod keeping;
mod kept;
mod known;
mod laws;
mod local;
mod over;
mod refusal;
mod show;
mod txn;

pub use txn::EntityTxn;
