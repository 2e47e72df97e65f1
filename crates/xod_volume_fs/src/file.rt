//! One file of the folder: its path, its handle in the system, and its bytes in memory.
//!
//! It is opened at its first use, and stays open. Its bytes are read whole at their first use, and kept as the file has
//! them from then on: after a call that may have left the two different they are let go of, and read again when they
//! are next asked for. What is appended behind bytes that were lent is a piece of its own; after some appends they are joined,
//! so that lending a file takes no longer the more often it was written to.
ghost use Rattle.std.specs.Prelude.{◌≡◌, IfOk, OnOk, IsSome, Some};

use crate::outside::{System, or_failed};
use crate::transfer::{read_all, write_all};
use std::alloc::Global;
use std::fs;
use std::fs::{File, OpenOptions};
use xod_volume::{Body, VolumeError};

/// After how many appends the bytes are joined into one piece.
const JOINED_AFTER: usize = 64;

/// Whether a sync of the file can be believed.
#[derive(Clone, Copy)]
enum Syncs {
    Sound,
    /// One failed. The system may have dropped what it could not write, and would not say so a second time.
    Failed,
}

/// A file that is there.
#[derive(Drop)]
pub struct FolderFile {
    path: String,
    handle: Option<File>,
    body: Option<Body>,
    /// How many appends there were since the bytes were last joined.
    appends: usize,
    syncs: Syncs,
}

impl FolderFile {
    ghost use Rattle.xod_volume_fs.specs.Kept.{StaysKept, ReadsKept, SizesKept};

    /// The file with this path, which nobody has used yet.
    pub fn unused(path: String) -> Self {
        FolderFile {
            path,
            handle: None,
            body: None,
            appends: 0,
            syncs: Syncs::Sound,
        }
    }

    /// Makes the file, and its name durable. Where that fails the name is taken back, as far as the system lets it be.
    pub fn make<R: System>(&mut self, rt: &R, folder: &File) -> Result<(), VolumeError> {
        let path = self.path.as_str();
        let file = or_failed(File::create_new(rt, path))?;
        if folder.sync_all().is_err() {
            let _gone = fs::remove_file(rt, path);
            return Err(VolumeError::Failed);
        }
        self.handle = Some(file);
        self.body = Some(Body::new(rt.alloc()));
        Ok(())
    }

    /// Takes the file's name out of the folder. It is durable after a sync of the folder.
    pub fn unlink<R: System>(&self, rt: &R) -> Result<(), VolumeError> {
        or_failed(fs::remove_file(rt, self.path.as_str()))
    }

    /// Opens the file, where it is not open.
    fn open<R: System>(&mut self, rt: &R) -> Result<(), VolumeError>
        ensures there { OnOk result (IsSome self.new.handle) }
        ensures same { self.new.body ≡ self.old.body }
    {
        if self.handle.is_none() {
            let mut options = OpenOptions::new();
            options.read(true).write(true);
            let file = or_failed(options.open(rt, self.path.as_str()))?;
            self.handle = Some(file);
        }
        Ok(())
    }

    /// Opens the file and reads it, where that is not done.
    fn read_in<R: System>(&mut self, rt: &R) -> Result<(), VolumeError>
        ensures there { OnOk result (IsSome self.new.body) }
        ensures kept { StaysKept self.old.body self.new.body }
    {
        self.open(rt)?;
        if let (Some(file), None) = (&self.handle, &self.body) {
            let body = read_all(rt.alloc(), file)?;
            self.body = Some(body);
        }
        Ok(())
    }

    /// How many bytes it has.
    pub fn len<R: System>(&mut self, rt: &R) -> Result<u64, VolumeError>
        ensures size { IfOk result (λ n. SizesKept self.new.body n) }
        ensures kept { StaysKept self.old.body self.new.body }
    {
        self.read_in(rt)?;
        match &self.body {
            Some(body) => Ok(body.len()),
            None => Err(VolumeError::Failed),
        }
    }

    /// Fills `out` from a place on, as far as the bytes go, and gives how many those are.
    pub fn read<R: System>(&mut self, rt: &R, at: u64, out: &mut [u8]) -> Result<usize, VolumeError>
        ensures filled { IfOk result (λ n. ReadsKept self.new.body at out.old out.new n) }
        ensures kept { StaysKept self.old.body self.new.body }
    {
        self.read_in(rt)?;
        match &self.body {
            Some(body) => Ok(body.read(at, out)),
            None => Err(VolumeError::Failed),
        }
    }

    /// Joins the bytes into one piece where there were many appends. Where memory is refused they stay as they are.
    fn join(&mut self, alloc: Global)
        ensures same { self.new.body ≡ self.old.body }
    {
        if self.appends < JOINED_AFTER {
            return;
        }
        self.appends = 0;
        let Some(body) = &self.body else {
            return;
        };
        if let Ok(bytes) = body.copied(alloc) {
            if let Ok(joined) = Body::from_bytes(alloc, bytes.as_slice()) {
                self.body = Some(joined);
            }
        }
    }

    /// The bytes once more. None is copied, but where they are joined.
    pub fn share<R: System>(&mut self, rt: &R) -> Result<Body, VolumeError>
        ensures shared { IfOk result (λ body. self.new.body ≡ Some body) }
        ensures kept { StaysKept self.old.body self.new.body }
    {
        self.read_in(rt)?;
        self.join(rt.alloc());
        match &mut self.body {
            Some(body) => Ok(body.share(rt.alloc())?),
            None => Err(VolumeError::Failed),
        }
    }

    /// Puts bytes at the end. Memory takes them first, so that want of it leaves the file as it is.
    pub fn append<R: System>(&mut self, rt: &R, bytes: &[u8]) -> Result<(), VolumeError> {
        self.read_in(rt)?;
        let (Some(file), Some(body)) = (&self.handle, &mut self.body) else {
            return Err(VolumeError::Failed);
        };
        let end = body.len();
        body.append(bytes)?;
        self.appends = self.appends.saturating_add(1);
        let written = write_all(file, end, bytes);
        if written.is_err() {
            self.body = None;
        }
        written
    }

    /// Writes bytes over those from a place on. Bytes in memory that a lease has are not written over.
    pub fn write_at<R: System>(
        &mut self,
        rt: &R,
        at: u64,
        bytes: &[u8],
    ) -> Result<(), VolumeError> {
        self.read_in(rt)?;
        let (Some(file), Some(body)) = (&self.handle, &mut self.body) else {
            return Err(VolumeError::Failed);
        };
        if at
            .checked_add(bytes.len() as u64)
            .is_none_or(|end| end > body.len())
        {
            return Err(VolumeError::Failed);
        }
        let written = write_all(file, at, bytes);
        if written.is_err() || !body.overwrite(at, bytes) {
            self.body = None;
        }
        written
    }

    /// Keeps the first bytes alone.
    pub fn cut<R: System>(&mut self, rt: &R, length: u64) -> Result<(), VolumeError> {
        self.read_in(rt)?;
        let (Some(file), Some(body)) = (&self.handle, &mut self.body) else {
            return Err(VolumeError::Failed);
        };
        if length > body.len() {
            return Err(VolumeError::Failed);
        }
        let answer = or_failed(file.set_len(length));
        match answer {
            Ok(()) => body.cut(length),
            Err(_) => self.body = None,
        }
        answer
    }

    /// Makes the file durable as it is. After one sync that failed all of them do.
    pub fn sync<R: System>(&mut self, rt: &R) -> Result<(), VolumeError> {
        self.open(rt)?;
        let (Some(file), Syncs::Sound) = (&self.handle, &self.syncs) else {
            return Err(VolumeError::Failed);
        };
        let answer = or_failed(file.sync_all());
        if answer.is_err() {
            self.syncs = Syncs::Failed;
        }
        answer
    }
}
