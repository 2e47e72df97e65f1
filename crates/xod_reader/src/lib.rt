//! What rows have, read in the trees that are their tables, by names and not by their numbers.
//!
//! Each call looks up the number of a name and then reads keys of its own alone. Where the view tells and its trees are
//! the tables of rows, the answer is what those rows have (`specs/Told.antt`).
#![tactic(auto)]

mod entities;
mod links;
mod naming;
mod parts;
mod props;
mod slot;
mod sorting;

pub use entities::{has, id_is_short, ids_of, next_local};
pub use links::{ids_linked, linked, links_in, links_out, targets_of};
pub use parts::{NamedLink, NamedLinks, NamedValue, NamedValues};
pub use props::{ids_found, ids_having, ids_with_front, ids_within, value_of, values_of};
pub use slot::{Slot, name_of, number_of, slot_of};
