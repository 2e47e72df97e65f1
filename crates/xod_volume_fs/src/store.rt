//! The files of a volume, in a folder that may not be there yet. No call counts its failures here.
ghost use Rattle.std.specs.Prelude.{◌≡◌, IfOk, Some};

use crate::file::FolderFile;
use crate::folder::Folder;
use crate::outside::System;
use xod_volume::{Body, FileTable, VolumeError};

/// The folder with a name, met at the first call that finds or makes it.
#[derive(Drop)]
pub struct Store<R> {
    pub rt: R,
    pub name: String,
    pub folder: Option<Folder>,
}

/// The file with this number. A folder that is not there has none.
fn file_of(folder: &mut Option<Folder>, file: u64) -> Result<&mut FolderFile, VolumeError> {
    let Some(folder) = folder else {
        return Err(VolumeError::Failed);
    };
    match folder.file(file) {
        Some(kept) => Ok(kept),
        None => Err(VolumeError::Failed),
    }
}

impl<R: System> Store<R> {
    ghost use Rattle.xod_volume_fs.specs.Kept.{kept_by, StayKept, ReadsKept, SizesKept, LendsKept};

    /// Looks for the folder, where it is not met yet.
    fn find(&mut self) -> Result<(), VolumeError>
        ensures kept { StayKept (kept_by self.old.folder) (kept_by self.new.folder) }
    {
        if self.folder.is_none() {
            self.folder = Folder::find(&self.rt, self.name.as_str())?;
        }
        Ok(())
    }

    /// The numbers of the files, in rising order.
    pub fn files(&mut self) -> Result<Vec<u64>, VolumeError> {
        self.find()?;
        match &self.folder {
            Some(folder) => Ok(folder.numbers(self.rt.alloc())?),
            None => Ok(Vec::new(self.rt.alloc())),
        }
    }

    /// Makes an empty file, and the folder where it is not there.
    pub fn create(&mut self, file: u64) -> Result<(), VolumeError> {
        self.find()?;
        if self.folder.is_none() {
            let made = Folder::make(&self.rt, self.name.as_str())?;
            self.folder = Some(made);
        }
        match &mut self.folder {
            Some(folder) => folder.create(&self.rt, self.name.as_str(), file),
            None => Err(VolumeError::Failed),
        }
    }

    /// Removes a file.
    pub fn remove(&mut self, file: u64) -> Result<(), VolumeError> {
        self.find()?;
        match &mut self.folder {
            Some(folder) => folder.remove(&self.rt, file),
            None => Err(VolumeError::Failed),
        }
    }

    /// How many bytes a file has.
    pub fn len(&mut self, file: u64) -> Result<u64, VolumeError>
        ensures size { IfOk result (λ n. SizesKept (kept_by self.new.folder file) n) }
        ensures kept { StayKept (kept_by self.old.folder) (kept_by self.new.folder) }
    {
        self.find()?;
        match &mut self.folder {
            Some(folder) => folder.len(&self.rt, file),
            None => Err(VolumeError::Failed),
        }
    }

    /// Fills `out` with bytes of a file from a place on, as far as the file goes, and gives how many those are.
    pub fn read(&mut self, file: u64, at: u64, out: &mut [u8]) -> Result<usize, VolumeError>
        ensures filled { IfOk result (λ n. ReadsKept (kept_by self.new.folder file) at out.old out.new n) }
        ensures kept { StayKept (kept_by self.old.folder) (kept_by self.new.folder) }
    {
        self.find()?;
        match &mut self.folder {
            Some(folder) => folder.read(&self.rt, file, at, out),
            None => Err(VolumeError::Failed),
        }
    }

    /// Puts bytes at the end of a file.
    pub fn append(&mut self, file: u64, bytes: &[u8]) -> Result<(), VolumeError> {
        self.find()?;
        file_of(&mut self.folder, file)?.append(&self.rt, bytes)
    }

    /// Writes bytes over those of a file from a place on.
    pub fn write_at(&mut self, file: u64, at: u64, bytes: &[u8]) -> Result<(), VolumeError> {
        self.find()?;
        file_of(&mut self.folder, file)?.write_at(&self.rt, at, bytes)
    }

    /// Cuts a file to a length.
    pub fn cut(&mut self, file: u64, length: u64) -> Result<(), VolumeError> {
        self.find()?;
        file_of(&mut self.folder, file)?.cut(&self.rt, length)
    }

    /// Makes a file durable as it is.
    pub fn sync(&mut self, file: u64) -> Result<(), VolumeError> {
        self.find()?;
        file_of(&mut self.folder, file)?.sync(&self.rt)
    }

    /// The files that the list names, as they are. No byte is copied.
    pub fn share(&mut self, list: &[u64]) -> Result<FileTable, VolumeError>
        ensures lent { IfOk result (λ table. LendsKept list.now (kept_by self.new.folder) table) }
        ensures kept { StayKept (kept_by self.old.folder) (kept_by self.new.folder) }
    {
        self.find()?;
        let mut table = FileTable::new(self.rt.alloc());
        for file in list {
            let body = self.share_one(*file)?;
            table.insert(*file, body)?;
        }
        Ok(table)
    }

    /// The bytes of a file once more. None is copied.
    fn share_one(&mut self, file: u64) -> Result<Body, VolumeError>
        ensures shared { IfOk result (λ body. kept_by self.new.folder file ≡ Some body) }
        ensures kept { StayKept (kept_by self.old.folder) (kept_by self.new.folder) }
    {
        match &mut self.folder {
            Some(folder) => folder.share(&self.rt, file),
            None => Err(VolumeError::Failed),
        }
    }
}
