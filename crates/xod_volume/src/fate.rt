//! What a crash leaves of a file, by each choice.
use xod_base::Bytes;

/// Which of the things that a crash may leave.
#[derive(Clone, Copy, Debug, PartialEq, Eq)]
pub enum Crash {
    /// All writes, as reads give them.
    Kept,
    /// Each file as it was synced last.
    Lost,
    /// Each file at its greatest length since its last sync, with 0xFF for each byte written since.
    Scrambled,
}

/// What all three choices give of one file.
#[derive(Drop)]
pub struct Fate {
    pub reads: Option<Bytes>,
    pub synced: Option<Bytes>,
    pub scrambled: Option<Bytes>,
}
