//! A lease of which it stays known what it has.
//!
//! An audit has no word for the files of the lease that it reads. So a lease is handed to one as an
//! `Owned`, whose type says which files it has, and taken out of it afterwards.
ghost use Rattle.std.specs.Prelude.{◌≡◌};
ghost use Rattle.std.specs.FinMap.{entries};

use std::marker::PhantomData;
use xod_base::Failed;
use xod_snapshot::Holding;
use xod_volume::Lease;

/// A lease that has these files, whatever was done with it.
pub struct Owned<L: Lease, H: Holding> {
    pub lease: L,
    pub files: PhantomData<H>,
    ghost list_is: { L.list lease ≡ H.list },
    ghost lent_is: { entries (L.lent lease) ≡ entries H.lent },
}

impl<L: Lease, H: Holding> Lease for Owned<L, H> {
    ghost tells = { λ owned. L.tells owned.lease };

    ghost list = { λ owned. L.list owned.lease };

    ghost lent = { λ owned. L.lent owned.lease };

    ghost reads = { λ owned. L.reads owned.lease };

    ghost faults = { λ owned. L.faults owned.lease };

    ghost refs = { λ owned. L.refs owned.lease };

    fn read(&mut self, file: u64, at: u64, out: &mut [u8]) -> Result<usize, Failed> {
        self.lease.read(file, at, out)
    }
}
