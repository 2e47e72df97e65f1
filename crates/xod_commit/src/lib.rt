//! The block that a commit writes: the new records of each changed tree, and last a root record.
//!
//! The environment hands in the roots of its newest commit, the touched keys, and where the block is to stand, and
//! writes what `build_block` answers. Nothing here writes a file. What may be committed stands in `specs/Blocks.antt`.
#![tactic(auto)]

mod block;
mod laws;
mod tree;
mod trees;

pub use block::{Built, build_block};
pub use laws::{keys_fit_after_a_commit, touches_stay_fit};
