//! The records of a lease up to the place where a log file is sealed.
ghost use Rattle.std.specs.Prelude.{◌≡◌, ◌∷◌, take};

use std::alloc::Global;
use std::mem;
use xod_base::{Bytes, ReadError};
use xod_block::{Address, Fetch};
use xod_pages::read_record;
use xod_trie::place_of;
use xod_volume::Lease;

/// The records of the log files that a lease holds, of which those in one log file count only where
/// they end before a place of it or there. `room` is what bytes are read into.
#[derive(Drop)]
pub struct Sealed<'a, L: Lease> {
    pub lease: &'a mut L,
    pub room: &'a mut Vec<u8>,
    pub file: u32,
    pub end: u64,
}

/// Takes the bytes behind a place off a list.
fn shorten(alloc: Global, bytes: &mut Bytes, length: usize)
    ensures { bytes.new ≡ take length bytes.old }
{
    let mut items = mem::replace(bytes, Bytes::new(alloc)).into_vec();
    items.truncate(length);
    *bytes = Bytes::from_vec(items);
}

impl<'a, L: Lease> Fetch for Sealed<'a, L> {
    ghost use Rattle.xod_recover.specs.Cuts.{lent_upto};
    ghost use Rattle.xod_recover.specs.CutLaws.{lent_upto-rises, lent_upto-branches};

    ghost tells = { λ sealed. L.tells sealed.lease.now };

    ghost records = { λ sealed. lent_upto (L.lent sealed.lease.now) sealed.file sealed.end };

    ghost faults = { λ sealed. L.faults sealed.lease.now };

    ghost refs = { λ sealed. sealed.lease.ghost_name ∷ sealed.room.ghost_name
        ∷ L.refs sealed.lease.now };

    ghost rises = { λ sealed. lent_upto-rises (L.lent sealed.lease.now) sealed.file sealed.end };

    ghost branches = { λ sealed. lent_upto-branches (L.lent sealed.lease.now) sealed.file
        sealed.end };

    fn fetch(&mut self, alloc: Global, at: Address, out: &mut Bytes) -> Result<usize, ReadError> {
        let before = out.len();
        let count = read_record(self.lease, self.room, at, out)?;
        if at.file == self.file && count as u64 > self.end.saturating_sub(at.at) {
            shorten(alloc, out, before);
            return Err(ReadError::Damaged(place_of(at)));
        }
        Ok(count)
    }
}
