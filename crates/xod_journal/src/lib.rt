//! What changes a store, the order in which it changed, and what a session asks of both.
//!
//! A row change is the smallest thing that happens to rows; an act expands into some. The journal is the list of shared
//! steps. When a change fits, what an act changes and when a journal stands, are definitions in `specs/`; what always
//! holds of them are the laws in `laws.rt`. A session reaches its transaction and the store by the traits in `space.rt`.
#![tactic(auto)]

mod change;
mod journal;
mod laws;
mod space;

pub use change::{ChangeList, RowChange, copy_changes};
pub use journal::{JournalEntry, Origin, Pinned, Step};
pub use laws::{
    books_need_no_rows, changes_keep_sound, expansions_fit, journals_go_on, names_stay,
    rows_are_those_of_the_base, same_is_equal,
};
pub use space::{BeginFault, Local, Space};
