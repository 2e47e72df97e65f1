//! Why a change stopped.
use xod_base::ReadError;

/// Why a change stopped.
#[derive(Clone, Copy, Debug)]
pub enum Stop {
    /// A read failed, or memory was refused.
    Read(ReadError),
    /// Two branches were to become one whose key part has no spelling. A trie whose keys fit never comes to that.
    TooLong,
}
