//! The journal: the shared steps of all sessions, in the order in which they were taken.
use crate::change::ChangeList;
use xod_base::{Cause, Mode};

/// Where a stop comes from. It is not printed.
#[derive(Clone, Copy, Debug, PartialEq, Eq)]
pub enum Origin {
    /// This run met it.
    Run,
    /// The order gives it.
    Order,
    /// The session was given up with its transaction open; the cause means nothing.
    Left,
}

/// A step that a session takes on the store.
#[derive(Debug, Drop)]
pub enum Step {
    Begin {
        mode: Mode,
    },
    /// The own changes go, and the newest commit is seen.
    Revert,
    /// The changes of the transaction, and the number of the new commit where they became one.
    Flush {
        changes: ChangeList,
        version: Option<u64>,
    },
    End,
    /// Every commit so far is made durable.
    Sync,
    /// The session stopped at a line of the input, and its transaction was given back.
    Stop {
        line: u32,
        cause: Cause,
        origin: Origin,
    },
}

/// A step and who took it: sessions have the numbers from 1 in the order of the input.
#[derive(Debug, Drop)]
pub struct JournalEntry {
    pub actor: u32,
    pub step: Step,
}

/// An open transaction as the books have it: its mode, and the commit that it sees.
#[derive(Clone, Copy, Debug, PartialEq, Eq)]
pub struct Pinned {
    pub mode: Mode,
    pub base: u64,
}
