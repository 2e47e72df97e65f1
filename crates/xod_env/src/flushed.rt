//! What became of a transaction's changes.

/// What a flush did.
#[derive(Clone, Copy, Debug, PartialEq, Eq)]
pub enum Flushed {
    /// There was no change, so there is no commit.
    Nothing,
    /// The changes are the commit of this number.
    Commit { version: u64 },
}
