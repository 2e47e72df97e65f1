//! A lease of files of a folder.
//!
//! It has the pieces of the bodies that were lent, as the volume has, and nobody writes to a piece that two have. So a
//! read of it touches no file, and never fails.
ghost use Rattle.std.specs.Prelude.{◌≡◌, ◌≤◌, ◌+◌, [], false, IfOk, IsOk, IsNone, Ok};
ghost use Rattle.std.specs.FinMap.{get};
ghost use Rattle.xod_base.specs.Causes.{Rose};
ghost use Rattle.xod_volume.specs.Files.{bytes_of};
ghost use Rattle.xod_volume.specs.Leases.{Filled};

use xod_base::{Failed, Listed};
use xod_volume::{FileTable, Lease};

/// Files that a `FolderVolume` lent.
pub struct FolderLease {
    pub(crate) list: Listed<u64>,
    pub(crate) table: FileTable,
    pub(crate) reads: u64,
}

impl Lease for FolderLease {
    ghost tells = { λ _. false };

    ghost list = { λ lease. lease.list };

    ghost lent = { λ lease. lease.table };

    ghost reads = { λ lease. lease.reads };

    ghost faults = { λ _. 0 };

    ghost refs = { λ _. [] };

    /// Fills `out` with bytes of a file from a place on, as far as the lent bytes go, and gives how many those are: 0
    /// for a file that was not lent. It never fails.
    fn read(&mut self, file: u64, at: u64, out: &mut [u8]) -> Result<usize, Failed>
        ensures filled { IfOk result (λ n. Filled (bytes_of (⟦<FolderLease as Lease>⟧.lent self.old) file)
            at out.old out.new n) }
        ensures nothing_of_another { IsNone (get (⟦<FolderLease as Lease>⟧.lent self.old) file)
            → result ≡ Ok 0 }
        ensures never_fails { IsOk result }
        ensures counted { Rose (⟦<FolderLease as Lease>⟧.reads self.old)
            (⟦<FolderLease as Lease>⟧.reads self.new) }
        ensures counted_once { ⟦<FolderLease as Lease>⟧.reads self.new
            ≤ ⟦<FolderLease as Lease>⟧.reads self.old + 1 }
        ensures list_same { ⟦<FolderLease as Lease>⟧.list self.new ≡ ⟦<FolderLease as Lease>⟧.list self.old }
        ensures lent_same { ⟦<FolderLease as Lease>⟧.lent self.new ≡ ⟦<FolderLease as Lease>⟧.lent self.old }
    {
        self.reads = self.reads.saturating_add(1);
        Ok(self.table.read(file, at, out))
    }
}
