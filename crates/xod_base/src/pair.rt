//! A key and its value, as trees give them.
use crate::Bytes;

/// A key of a tree and the value that stands under it.
#[derive(Debug, Drop)]
pub struct Pair {
    pub key: Bytes,
    pub value: Bytes,
}
