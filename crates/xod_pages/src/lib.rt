//! The records of a store's log files, by their address, over a lease of those files.
//!
//! `LeaseFetch` is the `Fetch` by which tries read what a store has on its device. `Pages` is what a session keeps from
//! one read to the next. What the files of a lease have stands in `specs/Lent.antt`.
#![tactic(auto)]

mod lease_fetch;
mod pages;
mod reading;
mod shown;

pub use lease_fetch::LeaseFetch;
pub use pages::Pages;
pub use reading::read_record;
pub use shown::LONGEST_RECORD;
