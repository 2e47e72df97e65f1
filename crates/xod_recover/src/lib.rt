//! Opening a store: which root is the newest that is durable, and whether all that it reaches is
//! there.
//!
//! `recover` is the opening. Its first part is `find_newest`, which only reads. What that decides
//! stands in `specs/Check.antt`: the newest root of good files, or the first bad place. Then
//! `clear_above` and `cut_tail` write, and `specs/Tails.antt` has what a crash may leave of it.
#![tactic(auto)]

mod above;
mod device;
mod emptying;
mod ends;
mod enter;
mod error;
mod laws;
mod near;
mod newest;
mod owned;
mod reach;
mod reopen;
mod root;
mod sealed;
mod since;
mod tail;
mod used;
mod walk;

pub use above::clear_above;
pub use error::OpenError;
pub use laws::{
    good_stores_have_rows, good_trees_have_maps, later_records_change_no_walk,
    nothing_is_bad_exactly_in_whole_tries, records_count_where_they_end, the_newest_root_is_found,
};
pub use near::{near_images_store_what_was_found, settled_volumes_are_near};
pub use newest::{Found, find_newest};
pub use reopen::recover;
pub use since::{what_is_stored_begins, what_was_stored_goes_on};
pub use tail::cut_tail;
