//! The links in a store's trees, by their sources and by their targets.
#![tactic(auto)]

mod reading;
mod writing;

pub use reading::{NumberedLinks, has_link, linked, links_in, links_out, sources_of, targets_of};
pub use writing::{add_link, push_link, push_link_gone, remove_link};
