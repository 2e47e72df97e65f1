//! Files in memory with the record of the calls that made them what they are.
//!
//! `MemoryVolume` hands in each call that was not to fail. Here the call comes to the record and the files change, or
//! neither does: room for the record is taken first, then the files change, and then the call is put into the room. That
//! the files are what the record says is the ghost field of `Disk`.
ghost use Rattle.std.specs.Prelude.{⊤, ◌≡◌, ◌≤◌, ◌<◌, ◌+◌, ◌++◌, ◌∷◌, [], length, take, IfOk, IsOk, OnOk, OnErr, IsNone, IsSome, IsTrue, MatchBool, vec_capacity};
ghost use Rattle.std.specs.FinMap.{get, insert, remove};
ghost use Rattle.xod_volume.specs.declared.history.Deed.{Deed};
ghost use Rattle.xod_volume.specs.declared.history.Deed.TheVariants.{Create, Append, WriteAt, Cut, Sync, Remove, Tear};
ghost use Rattle.xod_volume.specs.Files.{Content, bytes_of, size_of, overwritten};
ghost use Rattle.xod_volume.specs.Record.{done, files_now, MayAdd, Adds, HasRoom};

use crate::body::Body;
use crate::history::{Call, Deed};
use crate::patch::Patch;
use crate::table::FileTable;
use std::alloc::Global;
use xod_base::{Bytes, Memory};

/// Files, those that were there at first, and the calls since.
#[derive(Drop)]
pub struct Disk {
    pub start: FileTable,
    pub table: FileTable,
    pub calls: Vec<Call>,
    ghost agrees: { table ≡ files_now start calls.items },
}

/// How many calls find room in the record besides one for each file.
const SPARE: usize = 1024;

/// Takes room in a record for one call more, and after it for as many as there are files, and the spare ones.
fn make_room(calls: &mut Vec<Call>, files: usize) -> Result<(), Memory>
    ensures items { calls.new.items ≡ calls.old.items }
    ensures grows { vec_capacity calls.old ≤ vec_capacity calls.new }
    ensures room { OnOk result (length calls.new.items + 1 + files + 1024 ≤ vec_capacity calls.new) }
{
    let Some(wanted) = files.checked_add(1 + SPARE) else {
        return Err(Memory);
    };
    calls.reserve(wanted)?;
    Ok(())
}

/// Whether a call finds room in a record.
fn has_room(calls: &Vec<Call>) -> bool
    ensures { MatchBool result (length calls.now.items < vec_capacity calls.now)
        (vec_capacity calls.now ≤ length calls.now.items) }
{
    calls.len() < calls.capacity()
}

impl Disk {
    /// Files that no call has touched yet, given twice.
    pub fn new(alloc: Global, start: FileTable, table: FileTable) -> Result<Self, Memory>
        requires { table ≡ start }
        ensures start { IfOk result (λ disk. disk.start ≡ start) }
        ensures table { IfOk result (λ disk. disk.table ≡ start) }
        ensures calls { IfOk result (λ disk. disk.calls.items ≡ []) }
        ensures room { IfOk result (λ disk. HasRoom disk.table (length disk.calls.items)
            (vec_capacity disk.calls)) }
    {
        let mut calls = Vec::new(alloc);
        make_room(&mut calls, table.count())?;
        Ok(Disk {
            start,
            table,
            calls,
        })
    }

    /// The number of calls recorded.
    pub fn moment(&self) -> u64
        ensures { result ≡ length self.now.calls.items }
    {
        self.calls.len() as u64
    }

    /// Takes room for as many further calls as there are files, and for the spare ones.
    pub fn make_room(&mut self) -> Result<(), Memory>
        ensures start { self.new.start ≡ self.old.start }
        ensures table { self.new.table ≡ self.old.table }
        ensures calls { self.new.calls.items ≡ self.old.calls.items }
        ensures grows { vec_capacity self.old.calls ≤ vec_capacity self.new.calls }
        ensures room { OnOk result (HasRoom self.new.table (length self.new.calls.items)
            (vec_capacity self.new.calls)) }
    {
        make_room(&mut self.calls, self.table.count())
    }

    /// Records a call that failed, where it finds room.
    pub fn fail(&mut self, file: u64, deed: Deed)
        requires { (content : Content) → done deed content ≡ content }
        ensures start { self.new.start ≡ self.old.start }
        ensures table { self.new.table ≡ self.old.table }
        ensures calls { MayAdd (record { file = file; deed = deed }) self.old.calls.items self.new.calls.items }
        ensures noted { length self.old.calls.items < vec_capacity self.old.calls
            → Adds (record { file = file; deed = deed }) self.old.calls.items self.new.calls.items }
        ensures grows { vec_capacity self.old.calls ≤ vec_capacity self.new.calls }
    {
        if has_room(&self.calls) {
            self.calls.push_reserved(Call { file, deed });
        }
    }

    /// Makes an empty file.
    pub fn create(&mut self, alloc: Global, file: u64) -> Result<(), Memory>
        requires { IsNone (get self.old.table file) }
        ensures start { self.new.start ≡ self.old.start }
        ensures table { OnOk result (self.new.table ≡ insert self.old.table file []) }
        ensures calls { OnOk result (Adds (record { file = file; deed = Create })
            self.old.calls.items self.new.calls.items) }
        ensures table_same { OnErr result (self.new.table ≡ self.old.table) }
        ensures calls_same { OnErr result (self.new.calls.items ≡ self.old.calls.items) }
        ensures grows { vec_capacity self.old.calls ≤ vec_capacity self.new.calls }
        ensures room { OnOk result (HasRoom self.new.table (length self.new.calls.items)
            (vec_capacity self.new.calls)) }
    {
        make_room(&mut self.calls, self.table.count().saturating_add(1))?;
        self.table.insert(file, Body::new(alloc))?;
        self.calls.push_reserved(Call {
            file,
            deed: Deed::Create,
        });
        Ok(())
    }

    /// Puts bytes at the end of a file.
    pub fn append(&mut self, alloc: Global, file: u64, bytes: &[u8]) -> Result<(), Memory>
        requires { IsSome (get self.old.table file) }
        ensures start { self.new.start ≡ self.old.start }
        ensures table { OnOk result (self.new.table
            ≡ insert self.old.table file (bytes_of self.old.table file ++ bytes.now)) }
        ensures calls { OnOk result (Adds (record { file = file; deed = Append bytes.now })
            self.old.calls.items self.new.calls.items) }
        ensures table_same { OnErr result (self.new.table ≡ self.old.table) }
        ensures calls_same { OnErr result (self.new.calls.items ≡ self.old.calls.items) }
        ensures grows { vec_capacity self.old.calls ≤ vec_capacity self.new.calls }
        ensures room { OnOk result (HasRoom self.new.table (length self.new.calls.items)
            (vec_capacity self.new.calls)) }
    {
        let kept = Bytes::from_vec(Vec::from_slice(alloc, bytes)?);
        make_room(&mut self.calls, self.table.count())?;
        self.table.append(file, bytes)?;
        self.calls.push_reserved(Call {
            file,
            deed: Deed::Append(kept),
        });
        Ok(())
    }

    /// Writes bytes over those of a file, where the call finds room, and memory for what it records, and no lease has
    /// some of those bytes.
    pub fn write_at(&mut self, alloc: Global, file: u64, at: u64, bytes: &[u8]) -> bool
        requires exists { IsSome (get self.old.table file) }
        requires within { at + length bytes.now ≤ size_of self.old.table file }
        ensures start { self.new.start ≡ self.old.start }
        ensures table { MatchBool result (self.new.table
            ≡ insert self.old.table file (overwritten (bytes_of self.old.table file) at bytes.now))
            (self.new.table ≡ self.old.table) }
        ensures calls { MatchBool result (Adds (record { file = file; deed = WriteAt at bytes.now })
            self.old.calls.items self.new.calls.items) (self.new.calls.items ≡ self.old.calls.items) }
        ensures grows { vec_capacity self.old.calls ≤ vec_capacity self.new.calls }
    {
        if !has_room(&self.calls) {
            return false;
        }
        let Ok(patch) = Patch::new(alloc, bytes) else {
            return false;
        };
        if !self.table.overwrite(file, at, bytes) {
            return false;
        }
        self.calls.push_reserved(Call {
            file,
            deed: Deed::WriteAt(at, patch),
        });
        true
    }

    /// Writes bytes over those of a file, as `write_at` does, and records that they may be torn where it does not.
    pub fn write_or_tear(&mut self, alloc: Global, file: u64, at: u64, bytes: &[u8]) -> bool
        requires exists { IsSome (get self.old.table file) }
        requires within { at + length bytes.now ≤ size_of self.old.table file }
        ensures start { self.new.start ≡ self.old.start }
        ensures table { MatchBool result (self.new.table
            ≡ insert self.old.table file (overwritten (bytes_of self.old.table file) at bytes.now))
            (self.new.table ≡ self.old.table) }
        ensures calls { MatchBool result (Adds (record { file = file; deed = WriteAt at bytes.now })
            self.old.calls.items self.new.calls.items)
            (MayAdd (record { file = file; deed = Tear at (length bytes.now) })
            self.old.calls.items self.new.calls.items) }
        ensures noted { MatchBool result ⊤ (length self.old.calls.items < vec_capacity self.old.calls
            → Adds (record { file = file; deed = Tear at (length bytes.now) })
            self.old.calls.items self.new.calls.items) }
        ensures grows { vec_capacity self.old.calls ≤ vec_capacity self.new.calls }
    {
        if self.write_at(alloc, file, at, bytes) {
            return true;
        }
        self.fail(file, Deed::Tear(at, bytes.len() as u64));
        false
    }

    /// Cuts a file, where the call finds room.
    pub fn cut(&mut self, file: u64, kept: u64) -> bool
        requires { IsSome (get self.old.table file) }
        ensures start { self.new.start ≡ self.old.start }
        ensures table { MatchBool result (self.new.table
            ≡ insert self.old.table file (take kept (bytes_of self.old.table file)))
            (self.new.table ≡ self.old.table) }
        ensures calls { MatchBool result (Adds (record { file = file; deed = Cut kept })
            self.old.calls.items self.new.calls.items) (self.new.calls.items ≡ self.old.calls.items) }
        ensures grows { vec_capacity self.old.calls ≤ vec_capacity self.new.calls }
        ensures refused_only_without_room { length self.old.calls.items < vec_capacity self.old.calls
            → IsTrue result }
    {
        if !has_room(&self.calls) {
            return false;
        }
        self.table.cut(file, kept);
        self.calls.push_reserved(Call {
            file,
            deed: Deed::Cut(kept),
        });
        true
    }

    /// Records a sync, where the call finds room.
    pub fn sync(&mut self, file: u64) -> bool
        ensures start { self.new.start ≡ self.old.start }
        ensures table { self.new.table ≡ self.old.table }
        ensures calls { MatchBool result (Adds (record { file = file; deed = Sync })
            self.old.calls.items self.new.calls.items) (self.new.calls.items ≡ self.old.calls.items) }
        ensures grows { vec_capacity self.old.calls ≤ vec_capacity self.new.calls }
        ensures refused_only_without_room { length self.old.calls.items < vec_capacity self.old.calls
            → IsTrue result }
    {
        if !has_room(&self.calls) {
            return false;
        }
        self.calls.push_reserved(Call {
            file,
            deed: Deed::Sync,
        });
        true
    }

    /// Removes a file, where the call finds room.
    pub fn remove(&mut self, file: u64) -> bool
        ensures start { self.new.start ≡ self.old.start }
        ensures table { MatchBool result (self.new.table ≡ remove self.old.table file)
            (self.new.table ≡ self.old.table) }
        ensures calls { MatchBool result (Adds (record { file = file; deed = Remove })
            self.old.calls.items self.new.calls.items) (self.new.calls.items ≡ self.old.calls.items) }
        ensures grows { vec_capacity self.old.calls ≤ vec_capacity self.new.calls }
        ensures refused_only_without_room { length self.old.calls.items < vec_capacity self.old.calls
            → IsTrue result }
    {
        if !has_room(&self.calls) {
            return false;
        }
        self.table.remove(file);
        self.calls.push_reserved(Call {
            file,
            deed: Deed::Remove,
        });
        true
    }
}
