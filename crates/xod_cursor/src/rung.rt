//! What a cursor keeps of a branch.
ghost use Rattle.std.specs.Prelude.{◌<◌, length};
ghost use Rattle.xod_block.specs.Reading.{links_in};

use xod_base::Bytes;
use xod_block::Address;

/// A branch of which children are left to give.
#[derive(Drop)]
pub struct Rung {
    /// Where its record stands.
    pub at: Address,
    /// What its keys begin with.
    pub front: Bytes,
    /// All its children, as in its record.
    pub links: Bytes,
    /// The place of the next child among them, counted from 0.
    pub place: usize,
    ghost child_left: { place < length (links_in links) },
}
