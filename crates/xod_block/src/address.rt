//! Where a record begins.
ghost use Rattle.std.specs.Prelude.{◌≡◌, ◌<◌, ◌↔◌, IsTrue};

/// A byte of a log file's body: the number of the log file, and the place in it from 0. Addresses are ordered by file,
/// then place.
#[derive(Clone, Copy, Debug, PartialEq, Eq, PartialOrd, Ord)]
pub struct Address {
    pub file: u32,
    pub at: u64,
}

impl Address {
    ghost use Rattle.xod_block.specs.Addresses.{number_of};

    /// Whether this address is less than another. A record may name only those below its own.
    pub fn is_below(self, other: Address) -> bool
        ensures { IsTrue result ↔ (number_of self < number_of other) }
    {
        self < other
    }
}
