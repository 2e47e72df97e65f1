//! Tries over the records of a log: what their maps are, and the value of a key.
//!
//! A trie is a leaf or node with all that it names. Nothing here writes, and nothing knows of files: records come from
//! a `Fetch`. What a trie stands for is `trie_map` in `specs/Tries.antt`.
#![tactic(auto)]

mod branch;
mod child;
mod laws;
mod look;
mod read;
mod way;

pub use branch::{Branch, BranchRef, Links, branch_in, copied, copied_branch};
pub use child::{behind, child_in, child_of};
pub use laws::{
    damaged_tries_have_no_map, least_is_the_least, map_by_the_children,
    more_records_change_no_trie, the_map_determines_the_shape, tries_are_seen_by_their_values,
    value_by_the_branch,
};
pub use look::find;
pub use read::{load, place_of, read_record};
