//! The joined keys of a tree that keeps several values under one key: the key, and right behind it the value.
//!
//! Over keys that show their ends each joined key stands for one pair, and joined keys stand in the order of the pairs.
#![tactic(auto)]

mod joining;
mod laws;

pub use joining::dup_key;
pub use laws::{
    each_joined_key_is_one_pair, joined_keys_are_in_the_order_of_pairs, keys_behind_fronts,
    keys_of_one_length, keys_of_values,
};
