//! The contents of a store in plain lists: the slow program that every faster one is compared with.
//!
//! `Rows` are the contents; an act expands into row changes, changes that fit are applied, and a query is answered by
//! going through whole lists. What each call answers stands in `xod_journal`, in `specs/Changes.antt` and
//! `specs/Shows.antt`, and in `xod_base`, in `specs/Evaluation.antt`. `PlainSpace` is a store over them, and `PlainTxn`
//! an open transaction of it; they meet the traits of `xod_journal`.
#![tactic(auto)]

mod applying;
mod evaluation;
mod expansion;
mod items;
mod keyed;
mod lists;
mod names;
mod passing;
mod plain;
mod plain_txn;
mod removal;
mod rising;
mod room;
mod rows;
mod shared;
mod shown;
mod sorting;
mod txns;

pub use expansion::answer_to;
pub use plain::PlainSpace;
pub use plain_txn::PlainTxn;
pub use rows::{Rows, plain_eval};
