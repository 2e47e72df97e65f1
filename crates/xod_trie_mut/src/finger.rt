//! The branches in hand on the way to a key.
use crate::own_branch::OwnBranch;

/// A branch in hand: whether it was changed, and how many bytes of the key stand before its key part.
#[derive(Debug, Drop)]
pub struct Opened {
    pub branch: OwnBranch,
    pub changed: bool,
    pub taken: usize,
}

/// A branch on the way, and the byte under which the way goes on.
#[derive(Debug, Drop)]
pub struct Level {
    pub opened: Opened,
    pub byte: u8,
}

/// The way to a key, the root first, and the branch where it has come to.
#[derive(Debug, Drop)]
pub struct Finger {
    pub levels: Vec<Level>,
    pub focus: Opened,
}
