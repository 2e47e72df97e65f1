//! What a session keeps from one read to the next.

use std::alloc::Global;
use xod_base::Memory;

/// How many bytes a read asks for at first. Most records have fewer.
pub(crate) const FIRST_PIECE: usize = 256;

/// What a session keeps of the records that it read. It has no record yet, but the room that bytes are read into.
#[derive(Debug, Drop)]
pub struct Pages {
    pub(crate) room: Vec<u8>,
}

impl Pages {
    /// No record. Room for a first piece is taken, and a longer record makes it grow.
    pub fn new(alloc: Global) -> Result<Self, Memory> {
        Ok(Pages {
            room: vec![in alloc; 0u8; FIRST_PIECE]?,
        })
    }
}
