//! The volume: the files of a store, what is lent of them, and the count of faults.
ghost use Rattle.std.specs.Prelude.{⊤, ◌≡◌, ◌≤◌, ◌∷◌, [], false, codes, IfOk, OnOk, OnErr, IsErr, IsErrOf};
ghost use Rattle.xod_base.specs.Causes.{Rose};
ghost use Rattle.xod_volume.specs.Files.{no_files};
ghost use Rattle.xod_volume.specs.declared.volume.VolumeError.{VolumeError};

use crate::counted::{counted, counted_all};
use crate::lease::FolderLease;
use crate::lent::{any_names, copy_of, put_first, take_off};
use crate::outside::System;
use crate::store::Store;
use xod_base::{Failed, Listed, Memory};
use xod_volume::{Lease, Volume, VolumeError};

/// Files by number in one folder: file n is `n.log`. Other names in the folder are left alone.
///
/// A folder that is not there has no files, and the first `create` makes it. The first call that finds or makes the
/// folder takes a lock in it, `lock`, and keeps it to the end: where another volume has it, such a call fails.
///
/// It tells nothing of what its files hold.
#[derive(Drop)]
pub struct FolderVolume<R> {
    store: Store<R>,
    lent: Vec<Listed<u64>>,
    faults: u64,
}

/// The folder of a store, in the working folder.
const FOLDER_NAME: &str = "xod-store";

impl<R: System> FolderVolume<R> {
    ghost use Rattle.xod_volume_fs.specs.Kept.{folder_of, kept, StayKept, LendsKept};

    /// The volume in the folder `xod-store` of the working folder. Nothing is read or written yet.
    pub fn new(rt: R) -> Result<Self, Memory>
        ensures folder { IfOk result (λ volume. folder_of volume ≡ codes "xod-store") }
        ensures leases { IfOk result (λ volume. ⟦<FolderVolume<R> as Volume>⟧.leases volume ≡ []) }
        ensures faults { IfOk result (λ volume. ⟦<FolderVolume<R> as Volume>⟧.faults volume ≡ 0) }
    {
        FolderVolume::named(rt, FOLDER_NAME)
    }

    /// The volume in a folder with this name. Nothing is read or written yet.
    pub fn named(rt: R, folder: &str) -> Result<Self, Memory>
        ensures folder { IfOk result (λ volume. folder_of volume ≡ folder.now) }
        ensures leases { IfOk result (λ volume. ⟦<FolderVolume<R> as Volume>⟧.leases volume ≡ []) }
        ensures faults { IfOk result (λ volume. ⟦<FolderVolume<R> as Volume>⟧.faults volume ≡ 0) }
    {
        let alloc = rt.alloc();
        let name = String::from_str(alloc, folder)?;
        Ok(FolderVolume {
            store: Store {
                rt,
                name,
                folder: None,
            },
            lent: Vec::new(alloc),
            faults: 0,
        })
    }

    /// How many calls have failed.
    pub fn faults(&self) -> u64
        ensures { result ≡ ⟦<FolderVolume<R> as Volume>⟧.faults self.now }
    {
        self.faults
    }

    /// Makes the lease, and puts its list before the others.
    fn lease_of(&mut self, list: &[u64]) -> Result<FolderLease, VolumeError>
        ensures named { IfOk result (λ lease. lease.list ≡ list.now) }
        ensures holds { IfOk result (λ lease. LendsKept list.now (kept self.new) lease.table) }
        ensures kept { StayKept (kept self.old) (kept self.new) }
        ensures lent { OnOk result (self.new.lent.items ≡ list.now ∷ self.old.lent.items) }
        ensures refused { OnErr result (self.new.lent.items ≡ self.old.lent.items) }
        ensures faults_same { self.new.faults ≡ self.old.faults }
    {
        let table = self.store.share(list)?;
        let own = copy_of(self.store.rt.alloc(), list)?;
        let kept = copy_of(self.store.rt.alloc(), list)?;
        put_first(&mut self.lent, kept)?;
        Ok(FolderLease {
            list: own,
            table,
            reads: 0,
        })
    }
}

impl<R: System> Volume for FolderVolume<R> {
    ghost use Rattle.xod_volume_fs.specs.Kept.{kept, StayKept, ReadsKept, SizesKept, LendsKept};

    type Held = FolderLease;

    ghost tells = { λ _. false };

    ghost files = { λ _. no_files };

    ghost moment = { λ _. 0 };

    ghost may_leave = { λ _ _ _. ⊤ };

    ghost room = { λ _. 0 };

    ghost leases = { λ volume. volume.lent.items };

    ghost faults = { λ volume. volume.faults };

    ghost refs = { λ _. [] };

    fn files(&mut self) -> Result<Vec<u64>, VolumeError> {
        let answer = self.store.files();
        counted(&mut self.faults, answer)
    }

    fn len(&mut self, file: u64) -> Result<u64, Failed>
        ensures size { IfOk result (λ n. SizesKept (kept self.new file) n) }
        ensures kept { StayKept (kept self.old) (kept self.new) }
        ensures failed { IsErr result → Rose (⟦<FolderVolume<R> as Volume>⟧.faults self.old)
            (⟦<FolderVolume<R> as Volume>⟧.faults self.new) }
        ensures unfailed { OnOk result (⟦<FolderVolume<R> as Volume>⟧.faults self.new
            ≡ ⟦<FolderVolume<R> as Volume>⟧.faults self.old) }
        ensures leases_same { ⟦<FolderVolume<R> as Volume>⟧.leases self.new
            ≡ ⟦<FolderVolume<R> as Volume>⟧.leases self.old }
        ensures never_falls { ⟦<FolderVolume<R> as Volume>⟧.faults self.old
            ≤ ⟦<FolderVolume<R> as Volume>⟧.faults self.new }
    {
        let answer = self.store.len(file);
        counted_all(&mut self.faults, answer)
    }

    fn read(&mut self, file: u64, at: u64, out: &mut [u8]) -> Result<usize, Failed>
        ensures filled { IfOk result (λ n. ReadsKept (kept self.new file) at out.old out.new n) }
        ensures kept { StayKept (kept self.old) (kept self.new) }
        ensures failed { IsErr result → Rose (⟦<FolderVolume<R> as Volume>⟧.faults self.old)
            (⟦<FolderVolume<R> as Volume>⟧.faults self.new) }
        ensures unfailed { OnOk result (⟦<FolderVolume<R> as Volume>⟧.faults self.new
            ≡ ⟦<FolderVolume<R> as Volume>⟧.faults self.old) }
        ensures leases_same { ⟦<FolderVolume<R> as Volume>⟧.leases self.new
            ≡ ⟦<FolderVolume<R> as Volume>⟧.leases self.old }
        ensures never_falls { ⟦<FolderVolume<R> as Volume>⟧.faults self.old
            ≤ ⟦<FolderVolume<R> as Volume>⟧.faults self.new }
    {
        let answer = self.store.read(file, at, out);
        counted_all(&mut self.faults, answer)
    }

    fn create(&mut self, file: u64) -> Result<(), VolumeError> {
        let answer = self.store.create(file);
        counted(&mut self.faults, answer)
    }

    fn append(&mut self, file: u64, bytes: &[u8]) -> Result<(), VolumeError> {
        let answer = self.store.append(file, bytes);
        counted(&mut self.faults, answer)
    }

    fn write_at(&mut self, file: u64, at: u64, bytes: &[u8]) -> Result<(), Failed> {
        let answer = self.store.write_at(file, at, bytes);
        counted_all(&mut self.faults, answer)
    }

    fn cut(&mut self, file: u64, length: u64) -> Result<(), Failed> {
        let answer = self.store.cut(file, length);
        counted_all(&mut self.faults, answer)
    }

    fn sync(&mut self, file: u64) -> Result<(), Failed> {
        let answer = self.store.sync(file);
        counted_all(&mut self.faults, answer)
    }

    fn remove(&mut self, file: u64) -> Result<(), Failed> {
        let answer = self.store.remove(file);
        counted_all(&mut self.faults, answer)
    }

    fn lend(&mut self, list: &[u64]) -> Result<FolderLease, VolumeError>
        ensures named { IfOk result (λ lease. ⟦<FolderLease as Lease>⟧.list lease ≡ list.now) }
        ensures holds { IfOk result (λ lease. LendsKept list.now (kept self.new)
            (⟦<FolderLease as Lease>⟧.lent lease)) }
        ensures kept { StayKept (kept self.old) (kept self.new) }
        ensures lent { OnOk result (⟦<FolderVolume<R> as Volume>⟧.leases self.new
            ≡ list.now ∷ ⟦<FolderVolume<R> as Volume>⟧.leases self.old) }
        ensures refused { OnErr result (⟦<FolderVolume<R> as Volume>⟧.leases self.new
            ≡ ⟦<FolderVolume<R> as Volume>⟧.leases self.old) }
        ensures failed { IsErrOf result VolumeError.Failed → Rose (⟦<FolderVolume<R> as Volume>⟧.faults self.old)
            (⟦<FolderVolume<R> as Volume>⟧.faults self.new) }
        ensures unfailed { OnOk result (⟦<FolderVolume<R> as Volume>⟧.faults self.new
            ≡ ⟦<FolderVolume<R> as Volume>⟧.faults self.old) }
        ensures memory { IsErrOf result VolumeError.Memory → ⟦<FolderVolume<R> as Volume>⟧.faults self.new
            ≡ ⟦<FolderVolume<R> as Volume>⟧.faults self.old }
        ensures never_falls { ⟦<FolderVolume<R> as Volume>⟧.faults self.old
            ≤ ⟦<FolderVolume<R> as Volume>⟧.faults self.new }
    {
        let answer = self.lease_of(list);
        counted(&mut self.faults, answer)
    }

    fn held(&self, file: u64) -> bool {
        any_names(&self.lent, file)
    }

    fn take_back(&mut self, lease: FolderLease) {
        let FolderLease {
            list,
            table: _,
            reads: _,
        } = lease;
        take_off(&mut self.lent, list.as_slice());
    }
}
