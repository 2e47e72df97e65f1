//! A volume in memory, which keeps a record of its calls and so knows what a crash at any moment may leave.
//!
//! Tests and the program's own memory runs use it. It tells what it holds. Its moment is the number of calls recorded,
//! and its images are read off that record (`specs/Record.antt`): the record is data that a test can look at, through
//! `crash`. It fails where its plan says so, where a call finds no room in the record, and where a `write_at` would
//! change bytes that a lease has: such a call changes nothing. A writing call that failed is recorded where there is
//! room, as a tear of the bytes that it was to write, or as nothing.
ghost use Rattle.std.specs.Prelude.{◌≡◌, ◌≤◌, ◌+◌, ◌-◌, ◌∷◌, ℕ, [], true, IfOk, IsNone, is_ok, if◌then◌else◌, length, vec_capacity};
ghost use Rattle.std.specs.Arc.{arc_value};
ghost use Rattle.std.specs.FinMap.{get, len};
ghost use Rattle.xod_volume.specs.Files.{Files, no_files};
ghost use Rattle.xod_volume.specs.Leases.{holds_file, without};
ghost use Rattle.xod_volume.specs.Record.{image_at, crashed_at};

use crate::disk::Disk;
use crate::fate::Crash;
use crate::history::Deed;
use crate::lease::MemoryLease;
use crate::plan::Plan;
use crate::table::FileTable;
use crate::volume::{Volume, VolumeError};
use crate::walk::crashed_files;
use std::alloc::Global;
use std::sync::Arc;
use xod_base::{Failed, Listed, Memory};

/// Files in memory.
#[derive(Drop)]
pub struct MemoryVolume {
    alloc: Global,
    disk: Disk,
    lent: Vec<Listed<u64>>,
    plan: Arc<Plan>,
    faults: u64,
}

impl MemoryVolume {
    /// A volume without files, of which no call is planned to fail. Want of memory is its one refusal.
    pub fn new(alloc: Global) -> Result<Self, Memory>
        ensures files { IfOk result (λ volume. ⟦<MemoryVolume as Volume>⟧.files volume ≡ no_files) }
        ensures only { IfOk result (λ volume. (left : Files)
            → ⟦<MemoryVolume as Volume>⟧.may_leave volume 0 left → left ≡ no_files) }
        ensures moment { IfOk result (λ volume. ⟦<MemoryVolume as Volume>⟧.moment volume ≡ 0) }
        ensures leases { IfOk result (λ volume. ⟦<MemoryVolume as Volume>⟧.leases volume ≡ []) }
        ensures faults { IfOk result (λ volume. ⟦<MemoryVolume as Volume>⟧.faults volume ≡ 0) }
        ensures room { IfOk result (λ volume.
            len (⟦<MemoryVolume as Volume>⟧.files volume) + 1024 ≤ ⟦<MemoryVolume as Volume>⟧.room volume) }
        ensures planned { IfOk result (λ volume. (arc_value volume.plan).failing.items ≡ []) }
    {
        MemoryVolume::failing(alloc, &[])
    }

    /// A volume without files, of which these calls fail, counted from 0 over all its calls that can fail and those of
    /// its leases.
    pub fn failing(alloc: Global, calls: &[u64]) -> Result<Self, Memory>
        ensures files { IfOk result (λ volume. ⟦<MemoryVolume as Volume>⟧.files volume ≡ no_files) }
        ensures only { IfOk result (λ volume. (left : Files)
            → ⟦<MemoryVolume as Volume>⟧.may_leave volume 0 left → left ≡ no_files) }
        ensures moment { IfOk result (λ volume. ⟦<MemoryVolume as Volume>⟧.moment volume ≡ 0) }
        ensures leases { IfOk result (λ volume. ⟦<MemoryVolume as Volume>⟧.leases volume ≡ []) }
        ensures faults { IfOk result (λ volume. ⟦<MemoryVolume as Volume>⟧.faults volume ≡ 0) }
        ensures room { IfOk result (λ volume.
            len (⟦<MemoryVolume as Volume>⟧.files volume) + 1024 ≤ ⟦<MemoryVolume as Volume>⟧.room volume) }
        ensures planned { IfOk result (λ volume. (arc_value volume.plan).failing.items ≡ calls.now) }
    {
        let plan = Plan::new(Vec::from_slice(alloc, calls)?);
        Ok(MemoryVolume::on(alloc, FileTable::new(alloc), FileTable::new(alloc), plan)?)
    }

    /// A volume with these files, given twice, and this plan.
    fn on(alloc: Global, start: FileTable, table: FileTable, plan: Plan) -> Result<Self, Memory>
        requires { table ≡ start }
        ensures files { IfOk result (λ volume. volume.disk.table ≡ start) }
        ensures start { IfOk result (λ volume. volume.disk.start ≡ start) }
        ensures calls { IfOk result (λ volume. volume.disk.calls.items ≡ []) }
        ensures leases { IfOk result (λ volume. volume.lent.items ≡ []) }
        ensures faults { IfOk result (λ volume. volume.faults ≡ 0) }
        ensures room { IfOk result (λ volume.
            len (⟦<MemoryVolume as Volume>⟧.files volume) + 1024 ≤ ⟦<MemoryVolume as Volume>⟧.room volume) }
        ensures planned { IfOk result (λ volume. (arc_value volume.plan).failing.items ≡ plan.failing.items) }
    {
        let plan = Arc::new(alloc, plan)?;
        let disk = Disk::new(alloc, start, table)?;
        Ok(MemoryVolume {
            alloc,
            disk,
            lent: Vec::new(alloc),
            plan,
            faults: 0,
        })
    }

    /// The present moment: the number of calls recorded.
    pub fn moment(&self) -> u64
        ensures { result ≡ ⟦<MemoryVolume as Volume>⟧.moment self.now }
    {
        self.disk.moment()
    }

    /// How many calls have failed, those of the leases that were taken back among them.
    pub fn faults(&self) -> u64
        ensures { result ≡ ⟦<MemoryVolume as Volume>⟧.faults self.now }
    {
        self.faults
    }

    /// How many pieces a lease of a file would share, without the bytes that would become one more: 0 where it is absent.
    pub fn pieces(&self, file: u64) -> usize
        ensures { IsNone (get (⟦<MemoryVolume as Volume>⟧.files self.now) file) → result ≡ 0 }
    {
        match self.disk.table.body(file) {
            Some(body) => body.shared.list.len(),
            None => 0,
        }
    }

    /// A volume with what a crash at a moment leaves, by a choice: a new one, of which no call is planned to fail.
    pub fn crash(&self, moment: u64, choice: Crash) -> Result<Self, Memory>
        requires has_come { moment ≤ ⟦<MemoryVolume as Volume>⟧.moment self.now }
        ensures found { IfOk result (λ volume. (file : ℕ)
            → get (⟦<MemoryVolume as Volume>⟧.files volume) file
            ≡ crashed_at choice self.now.disk.start self.now.disk.calls.items moment file) }
        ensures is_image { IfOk result (λ volume.
            ⟦<MemoryVolume as Volume>⟧.may_leave self.now moment (⟦<MemoryVolume as Volume>⟧.files volume)) }
        ensures settled { IfOk result (λ volume. (left : Files)
            → ⟦<MemoryVolume as Volume>⟧.may_leave volume 0 left
            → left ≡ ⟦<MemoryVolume as Volume>⟧.files volume) }
        ensures moment { IfOk result (λ volume. ⟦<MemoryVolume as Volume>⟧.moment volume ≡ 0) }
        ensures leases { IfOk result (λ volume. ⟦<MemoryVolume as Volume>⟧.leases volume ≡ []) }
        ensures faults { IfOk result (λ volume. ⟦<MemoryVolume as Volume>⟧.faults volume ≡ 0) }
        ensures room { IfOk result (λ volume.
            len (⟦<MemoryVolume as Volume>⟧.files volume) + 1024 ≤ ⟦<MemoryVolume as Volume>⟧.room volume) }
        ensures planned { IfOk result (λ volume. (arc_value volume.plan).failing.items ≡ []) }
    {
        let calls = &self.disk.calls[..moment as usize];
        let start = crashed_files(self.alloc, &self.disk.start, calls, choice)?;
        let table = crashed_files(self.alloc, &self.disk.start, calls, choice)?;
        let plan = Plan::new(Vec::new(self.alloc));
        Ok(MemoryVolume::on(self.alloc, start, table, plan)?)
    }
}

impl Volume for MemoryVolume {
    type Held = MemoryLease;

    ghost tells = { λ volume. true };

    ghost files = { λ volume. volume.disk.table };

    ghost moment = { λ volume. length volume.disk.calls.items };

    ghost may_leave = { λ volume. image_at volume.disk.start volume.disk.calls.items };

    ghost room = { λ volume. vec_capacity volume.disk.calls - length volume.disk.calls.items };

    ghost leases = { λ volume. volume.lent.items };

    ghost faults = { λ volume. volume.faults };

    ghost refs = { λ volume. [] };

    fn files(&mut self) -> Result<Vec<u64>, VolumeError> {
        if self.plan.fails() {
            self.faults = self.faults.saturating_add(1);
            return Err(VolumeError::Failed);
        }
        let numbers = self.disk.table.numbers(self.alloc)?;
        self.disk.make_room()?;
        Ok(numbers)
    }

    fn len(&mut self, file: u64) -> Result<u64, Failed> {
        if self.plan.fails() {
            self.faults = self.faults.saturating_add(1);
            return Err(Failed);
        }
        Ok(self.disk.table.size(file))
    }

    fn read(&mut self, file: u64, at: u64, out: &mut [u8]) -> Result<usize, Failed> {
        if self.plan.fails() {
            self.faults = self.faults.saturating_add(1);
            return Err(Failed);
        }
        Ok(self.disk.table.read(file, at, out))
    }

    fn create(&mut self, file: u64) -> Result<(), VolumeError> {
        if self.plan.fails() {
            self.faults = self.faults.saturating_add(1);
            self.disk.fail(file, Deed::Nothing);
            return Err(VolumeError::Failed);
        }
        self.disk.create(self.alloc, file)?;
        Ok(())
    }

    fn append(&mut self, file: u64, bytes: &[u8]) -> Result<(), VolumeError> {
        if self.plan.fails() {
            self.faults = self.faults.saturating_add(1);
            let end = self.disk.table.size(file);
            self.disk.fail(file, Deed::Tear(end, bytes.len() as u64));
            return Err(VolumeError::Failed);
        }
        self.disk.append(self.alloc, file, bytes)?;
        Ok(())
    }

    fn write_at(&mut self, file: u64, at: u64, bytes: &[u8]) -> Result<(), Failed> {
        if self.plan.fails() {
            self.faults = self.faults.saturating_add(1);
            self.disk.fail(file, Deed::Tear(at, bytes.len() as u64));
            return Err(Failed);
        }
        if self.disk.write_or_tear(self.alloc, file, at, bytes) {
            Ok(())
        } else {
            self.faults = self.faults.saturating_add(1);
            Err(Failed)
        }
    }

    fn cut(&mut self, file: u64, length: u64) -> Result<(), Failed> {
        if self.plan.fails() {
            self.faults = self.faults.saturating_add(1);
            self.disk.fail(file, Deed::Nothing);
            return Err(Failed);
        }
        if self.disk.cut(file, length) {
            Ok(())
        } else {
            self.faults = self.faults.saturating_add(1);
            Err(Failed)
        }
    }

    fn sync(&mut self, file: u64) -> Result<(), Failed> {
        if self.plan.fails() {
            self.faults = self.faults.saturating_add(1);
            self.disk.fail(file, Deed::Nothing); // a sync that failed makes nothing durable
            return Err(Failed);
        }
        if self.disk.sync(file) {
            Ok(())
        } else {
            self.faults = self.faults.saturating_add(1);
            Err(Failed)
        }
    }

    fn remove(&mut self, file: u64) -> Result<(), Failed> {
        if self.plan.fails() {
            self.faults = self.faults.saturating_add(1);
            self.disk.fail(file, Deed::Nothing);
            return Err(Failed);
        }
        if self.disk.remove(file) {
            Ok(())
        } else {
            self.faults = self.faults.saturating_add(1);
            Err(Failed)
        }
    }

    fn lend(&mut self, list: &[u64]) -> Result<MemoryLease, VolumeError> {
        if self.plan.fails() {
            self.faults = self.faults.saturating_add(1);
            return Err(VolumeError::Failed);
        }
        let table = self.disk.table.share(self.alloc, list)?;
        let own = copy_of(self.alloc, list)?;
        let kept = copy_of(self.alloc, list)?;
        let plan = share_plan(&self.plan)?;
        self.disk.make_room()?;
        put_first(&mut self.lent, kept)?;
        Ok(MemoryLease {
            list: own,
            table,
            plan,
            reads: 0,
            faults: 0,
        })
    }

    fn held(&self, file: u64) -> bool {
        any_names(&self.lent, file)
    }

    fn take_back(&mut self, lease: MemoryLease) {
        let MemoryLease {
            list,
            table: _,
            plan: _,
            reads: _,
            faults,
        } = lease;
        take_off(&mut self.lent, list.as_slice());
        self.faults = self.faults.saturating_add(faults);
    }
}

/// A list of the same numbers.
fn copy_of(alloc: Global, list: &[u64]) -> Result<Listed<u64>, Memory>
    ensures { IfOk result (λ copy. copy ≡ list.now) }
{
    Ok(Listed::from_vec(Vec::from_slice(alloc, list)?))
}

/// Puts a list before the others. A refusal leaves them as they were.
fn put_first(lists: &mut Vec<Listed<u64>>, list: Listed<u64>) -> Result<(), Memory>
    ensures { lists.new.items ≡ (if is_ok result then list ∷ lists.old.items else lists.old.items) }
{
    lists.insert(0, list)?;
    Ok(())
}

/// The plan once more.
fn share_plan(plan: &Arc<Plan>) -> Result<Arc<Plan>, Memory> {
    Ok(Arc::try_clone(plan)?)
}

/// Whether one of the lists names the file.
fn any_names(lists: &[Listed<u64>], file: u64) -> bool
    ensures { result ≡ holds_file lists.now file }
{
    for list in lists {
        if list.as_slice().contains(&file) {
            return true;
        }
    }
    false
}

/// Takes off the first of the lists that is this one, where there is one.
fn take_off(lists: &mut Vec<Listed<u64>>, list: &[u64])
    ensures { lists.new.items ≡ without list.now lists.old.items }
{
    for at in 0..lists.len() {
        if lists[at].as_slice() == list {
            lists.remove(at);
            return;
        }
    }
}
