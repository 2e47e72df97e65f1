//! The records of a lease's files.
ghost use Rattle.std.specs.Prelude.{◌≡◌, ◌∷◌};
ghost use Rattle.xod_block.specs.Bodies.{records_of};
ghost use Rattle.xod_pages.specs.Lent.{lent_bodies};

use crate::pages::Pages;
use crate::reading::read_record;
use std::alloc::Global;
use xod_base::{Bytes, ReadError};
use xod_block::{Address, Fetch};
use xod_volume::Lease;

/// The records of the log files that a lease holds, with what a session keeps of them. It tells its records where the
/// lease tells its files, and a fetch fails where a read of the lease does.
#[derive(Drop)]
pub struct LeaseFetch<'a, L: Lease> {
    pub lease: &'a mut L,
    pub pages: &'a mut Pages,
}

impl<'a, L: Lease> Fetch for LeaseFetch<'a, L> {
    ghost tells = { λ fetch. L.tells fetch.lease.now };

    ghost records = { λ fetch. records_of (lent_bodies (L.lent fetch.lease.now)) };

    ghost faults = { λ fetch. L.faults fetch.lease.now };

    ghost refs = { λ fetch. fetch.lease.ghost_name ∷ fetch.pages.ghost_name
        ∷ L.refs fetch.lease.now };

    ghost use Rattle.xod_block.specs.Rising.{records_of-rises, records_of-branches};

    ghost rises = { λ fetch. records_of-rises (lent_bodies (L.lent fetch.lease.now)) };

    ghost branches = { λ fetch. records_of-branches (lent_bodies (L.lent fetch.lease.now)) };

    fn fetch(&mut self, _alloc: Global, at: Address, out: &mut Bytes) -> Result<usize, ReadError> {
        read_record(self.lease, &mut self.pages.room, at, out)
    }
}
