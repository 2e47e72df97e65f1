//! What a transaction keeps beside its view of the trees: the names of the types, and later the answers of queries.
#![tactic(auto)]

mod adapter;
mod laws;

pub use adapter::{Adapter, copy_names};
pub use laws::kinds_follow;
