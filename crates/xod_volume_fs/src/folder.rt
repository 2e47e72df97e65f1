//! The folder, once it is found or made: its lock, and its files by number.
//!
//! Nobody else makes or removes its files while it is locked, so they are listed once.
ghost use Rattle.std.specs.Prelude.{IfOk, Some};

use crate::file::FolderFile;
use crate::names::{lock_path, number_of, path_of};
use crate::outside::{System, or_failed, or_memory};
use std::alloc::Global;
use std::collections::BTreeMap;
use std::fs::{DirEntry, File, OpenOptions};
use std::io::ErrorKind;
use std::path::Path;
use std::{fs, io};
use xod_base::Memory;
use xod_volume::{Body, VolumeError};

/// A folder that is locked.
#[derive(Drop)]
pub struct Folder {
    /// The folder, as the system syncs it.
    handle: File,
    /// The lock is held as long as this is open.
    lock: File,
    files: BTreeMap<u64, FolderFile>,
}

impl Folder {
    ghost use Rattle.std.specs.Prelude.{◌≡◌};
    ghost use Rattle.xod_volume_fs.specs.Kept.{kept_in, StayKept, ReadsKept, SizesKept};

    /// The folder with this name; `None` where there is none.
    pub fn find<R: System>(rt: &R, name: &str) -> Result<Option<Self>, VolumeError> {
        if or_failed(fs::exists(rt, name))? {
            Ok(Some(Folder::open(rt, name)?))
        } else {
            Ok(None)
        }
    }

    /// Makes the folder with this name.
    pub fn make<R: System>(rt: &R, name: &str) -> Result<Self, VolumeError> {
        or_failed(fs::create_dir(rt, name))?;
        Folder::open(rt, name)
    }

    /// Locks the folder, lists it, and makes its own name durable.
    fn open<R: System>(rt: &R, name: &str) -> Result<Self, VolumeError> {
        let lock = locked(rt, name)?;
        let files = listed(rt, name)?;
        let handle = or_failed(File::open(rt, name))?;
        let above = or_failed(File::open(rt, folder_above(name)))?;
        or_failed(above.sync_all())?;
        Ok(Folder {
            handle,
            lock,
            files,
        })
    }

    /// The numbers of the files, in rising order.
    pub fn numbers(&self, alloc: Global) -> Result<Vec<u64>, Memory> {
        Ok(self.files.keys().copied().collect(alloc)?)
    }

    /// The file with this number.
    pub fn file(&mut self, file: u64) -> Option<&mut FolderFile> {
        self.files.get_mut(&file)
    }

    /// How many bytes a file has.
    pub fn len<R: System>(&mut self, rt: &R, file: u64) -> Result<u64, VolumeError>
        ensures size { IfOk result (λ n. SizesKept (kept_in self.new file) n) }
        ensures kept { StayKept (kept_in self.old) (kept_in self.new) }
    {
        match self.files.get_mut(&file) {
            Some(kept) => kept.len(rt),
            None => Err(VolumeError::Failed),
        }
    }

    /// Fills `out` with bytes of a file from a place on, as far as the file goes, and gives how many those are.
    pub fn read<R: System>(
        &mut self,
        rt: &R,
        file: u64,
        at: u64,
        out: &mut [u8],
    ) -> Result<usize, VolumeError>
        ensures filled { IfOk result (λ n. ReadsKept (kept_in self.new file) at out.old out.new n) }
        ensures kept { StayKept (kept_in self.old) (kept_in self.new) }
    {
        match self.files.get_mut(&file) {
            Some(kept) => kept.read(rt, at, out),
            None => Err(VolumeError::Failed),
        }
    }

    /// The bytes of a file once more. None is copied.
    pub fn share<R: System>(&mut self, rt: &R, file: u64) -> Result<Body, VolumeError>
        ensures shared { IfOk result (λ body. kept_in self.new file ≡ Some body) }
        ensures kept { StayKept (kept_in self.old) (kept_in self.new) }
    {
        match self.files.get_mut(&file) {
            Some(kept) => kept.share(rt),
            None => Err(VolumeError::Failed),
        }
    }

    /// Makes an empty file.
    pub fn create<R: System>(&mut self, rt: &R, name: &str, file: u64) -> Result<(), VolumeError> {
        if self.files.contains_key(&file) {
            return Err(VolumeError::Failed);
        }
        let path = path_of(rt.alloc(), name, file)?;
        put(&mut self.files, file, FolderFile::unused(path))?;
        let made = self.make_file(rt, file);
        if made.is_err() {
            self.files.remove(&file);
        }
        made
    }

    /// Makes a file that is in the list.
    fn make_file<R: System>(&mut self, rt: &R, file: u64) -> Result<(), VolumeError> {
        match self.files.get_mut(&file) {
            Some(kept) => kept.make(rt, &self.handle),
            None => Err(VolumeError::Failed),
        }
    }

    /// Removes a file. Where the folder's sync fails the file is gone all the same, and may be back after a crash.
    pub fn remove<R: System>(&mut self, rt: &R, file: u64) -> Result<(), VolumeError> {
        let Some(kept) = self.files.get(&file) else {
            return Err(VolumeError::Failed);
        };
        kept.unlink(rt)?;
        self.files.remove(&file);
        or_failed(self.handle.sync_all())
    }
}

/// The folder in which the one with this name stands.
fn folder_above(name: &str) -> Path<'_> {
    match Path::new(name).parent() {
        Some(above) if !above.as_str().is_empty() => above,
        _ => Path::new("."),
    }
}

/// The lock of a folder, which nobody else has.
fn locked<R: System>(rt: &R, name: &str) -> Result<File, VolumeError> {
    let path = lock_path(rt.alloc(), name)?;
    let mut options = OpenOptions::new();
    options.write(true).create(true);
    let lock = or_failed(options.open(rt, path.as_str()))?;
    match lock.try_lock() {
        Ok(()) => Ok(lock),
        Err(_) => Err(VolumeError::Failed),
    }
}

/// The files of a folder. Every other name in it is passed over.
fn listed<R: System>(rt: &R, name: &str) -> Result<BTreeMap<u64, FolderFile>, VolumeError> {
    let mut files = BTreeMap::new(rt.alloc());
    for entry in or_memory(fs::read_dir(rt, name))? {
        if let Some(file) = file_of(rt.alloc(), entry)? {
            let path = path_of(rt.alloc(), name, file)?;
            put(&mut files, file, FolderFile::unused(path))?;
        }
    }
    Ok(files)
}

/// The number of the file that an entry of the folder is, where it is one.
fn file_of<R: System>(
    alloc: Global,
    entry: io::Result<DirEntry<R>>,
) -> Result<Option<u64>, VolumeError> {
    let entry = match entry {
        Ok(entry) => entry,
        Err(error) if error.kind() == ErrorKind::InvalidFilename => return Ok(None),
        Err(error) => return or_memory(Err(error)),
    };
    let Some(file) = number_of(alloc, entry.file_name())? else {
        return Ok(None);
    };
    if or_failed(entry.file_type())?.is_file() {
        Ok(Some(file))
    } else {
        Ok(None)
    }
}

/// Puts a file in.
fn put(files: &mut BTreeMap<u64, FolderFile>, file: u64, kept: FolderFile) -> Result<(), Memory> {
    files.insert(file, kept)?;
    Ok(())
}
