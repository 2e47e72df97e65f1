//! Order in the tries of a log: the least key from a key on, and walks from key to key.
//!
//! Nothing here writes, and nothing knows of files: records come from a `Fetch`. What a trie stands for is `trie_map` of
//! `xod_trie`, and what is least in it stands in `specs/Views.antt` of `xod_base`.
#![tactic(auto)]

mod cursor;
mod down;
mod enter;
mod lowest;
mod path;
mod rung;
mod walks;
mod wanted;

pub use cursor::Cursor;
pub use walks::{next, seek};
