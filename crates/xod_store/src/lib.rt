//! The store over an environment.
//!
//! A `StoreState` has an environment, which it lends to no one but its own transactions, and the journal of what was done
//! to it. Each shared step is a call of its own, and as a `Space` it hands a session's calls on to these. What it keeps
//! stands in `specs/Parts.antt`, what a crash may leave of it in `specs/Images.antt`.
#![tactic(auto)]

mod causes;
mod flush;
mod pins;
mod space;
mod state;
mod steps;

pub use causes::{BeginError, cause_of, fault_of};
pub use state::{Start, StoreState, StoreTxn};
