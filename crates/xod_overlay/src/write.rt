//! What is written into trees: a list of keys, each with its value or without one.
use xod_base::{Bytes, Listed};

/// A key of a tree gets a value, or goes where there is none.
#[derive(Debug, Drop)]
pub struct Write {
    pub tree: u8,
    pub key: Bytes,
    pub value: Option<Bytes>,
}

/// Writes that are made one after another, the first one first.
pub type WriteList = Listed<Write>;
