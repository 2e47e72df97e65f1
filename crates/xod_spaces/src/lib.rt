//! A store that fails as it is told to, and tests of sessions over it.
//!
//! `FaultySpace` meets `Space` of `xod_journal`, and `FaultyTxn` meets `Local`. Both answer what a store over a device
//! can answer and one in memory never does. They do not tell their rows, as such a store does not. Nothing here is part
//! of a program.
#![tactic(auto)]

mod outside;
mod plan;
mod room;
mod space;
#[cfg(test)]
mod tests;
mod txn;
mod txns;

pub use plan::{Planned, Trouble};
pub use space::FaultySpace;
pub use txn::FaultyTxn;
