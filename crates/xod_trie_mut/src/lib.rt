//! A trie that is changed in memory, and saved behind the records of a log.
//!
//! What it stands for is a map, `mut_map` in `specs/Own.antt`: its own branches are records above all addresses of the
//! log, so that the map of a trie means the same with them. Nothing here knows of files.
#![tactic(auto)]

mod block;
mod change;
mod changing;
mod compact;
mod finger;
mod frames;
mod keep;
mod laws;
mod loading;
mod looking;
mod mut_trie;
mod own_branch;
mod placing;
mod save;
mod save_laws;
mod seat;
mod settling;
mod stop;
mod way;
mod weight;

pub use change::Change;
pub use laws::{own_branches_are_records, records_below_the_root_suffice};
pub use mut_trie::MutTrie;
pub use save_laws::{a_block_keeps_what_it_has, a_branch_is_put_behind_its_children};
