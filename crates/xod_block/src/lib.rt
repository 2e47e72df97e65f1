//! The bytes of the log: records, and the marks at which a body is whole.
//!
//! Nothing here opens a file. What the bytes mean stands in `specs/`, and with a worked example in docs/FORMATS.md.
#![tactic(auto)]

mod address;
mod body_fetch;
mod end_mark;
mod fetch;
mod laws;
mod link;
mod log_record;
mod number;
mod reading;
mod writing;

pub use address::Address;
pub use body_fetch::{Body, BodyFetch};
pub use end_mark::{EndMark, decode_mark, encode_mark};
pub use fetch::Fetch;
pub use laws::{
    addresses_go_by_number, an_appended_block_is_read, children_of_bodies_rise,
    every_mark_comes_back, growing_bodies_keep_records, keys_of_a_map_rise,
    later_records_change_no_map, map_of_a_record, more_records_change_no_map,
    no_spelling_begins_another, nodes_of_bodies_branch,
};
pub use link::{child_at, encode_link, link_at, link_count};
pub use log_record::LogRecord;
pub use reading::decode_record;
pub use writing::encode_record;
