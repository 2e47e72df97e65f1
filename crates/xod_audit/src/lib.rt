//! Whether trees are the tables of some rows.
#![tactic(auto)]

mod check;
mod count;
mod laws;
mod lists;
mod look;
mod trees;

pub use laws::tests_tell;
pub use trees::audit;
