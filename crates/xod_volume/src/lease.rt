//! A lease of files in memory.
//!
//! It has the pieces of the bodies that were lent, as the volume has, and nobody writes to a piece that two have: so it
//! is read while the volume is used elsewhere, and without a lock. It counts its reads and its own faults; `take_back`
//! adds those to the volume's. A read of a file that was not lent asks no plan, and does not fail.
ghost use Rattle.std.specs.Prelude.{[], true};

use crate::plan::Plan;
use crate::table::FileTable;
use crate::volume::Lease;
use std::sync::Arc;
use xod_base::{Failed, Listed};

/// Files that a `MemoryVolume` lent.
pub struct MemoryLease {
    pub(crate) list: Listed<u64>,
    pub(crate) table: FileTable,
    pub(crate) plan: Arc<Plan>,
    pub(crate) reads: u64,
    pub(crate) faults: u64,
}

impl Lease for MemoryLease {
    ghost tells = { λ lease. true };

    ghost list = { λ lease. lease.list };

    ghost lent = { λ lease. lease.table };

    ghost reads = { λ lease. lease.reads };

    ghost faults = { λ lease. lease.faults };

    ghost refs = { λ lease. [] };

    fn read(&mut self, file: u64, at: u64, out: &mut [u8]) -> Result<usize, Failed> {
        self.reads = self.reads.saturating_add(1);
        if self.table.body(file).is_some() && self.plan.fails() {
            self.faults = self.faults.saturating_add(1);
            return Err(Failed);
        }
        Ok(self.table.read(file, at, out))
    }
}
