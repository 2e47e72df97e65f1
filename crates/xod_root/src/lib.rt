//! The roots of a store's trees, and the records that list them.
//!
//! A commit ends with a root record: the commit's number, and where the root of each tree begins. Nothing here reads
//! or writes a file. What a list of roots is stands in `specs/Roots.antt`.
#![tactic(auto)]

mod laws;
mod record;
mod roots;

pub use laws::{a_written_root_is_read, one_root_is_set};
pub use record::{encode_root, read_root};
pub use roots::{MOST_TREES, RootList};
