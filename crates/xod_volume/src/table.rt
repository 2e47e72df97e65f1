//! Files in memory by number, each with its body.
ghost use Rattle.std.specs.Prelude.{◌≡◌, ◌≤◌, ◌<◌, ◌+◌, ◌^◌, ◌++◌, length, take, IfOk, MatchBool, IsSome, is_ok, is_some, if◌then◌else◌};
ghost use Rattle.std.specs.Option.{option_copied};
ghost use Rattle.std.specs.FinMap.{get, insert, remove, keys, len};
ghost use Rattle.std.specs.Ordering.{nat_cmp};
ghost use Rattle.std.specs.BTreeMap as tree;
ghost use Rattle.xod_volume.specs.Files.{no_files, bytes_of, size_of, overwritten};
ghost use Rattle.xod_volume.specs.Leases.{lent_of, Filled};

use crate::body::Body;
use std::alloc::{AllocError, Global};
use std::collections::BTreeMap;
use std::marker::Model;
use xod_base::{Bytes, Memory};

/// Files by number.
#[derive(Drop)]
pub struct FileTable {
    bodies: BTreeMap<u64, Body>,
}

impl Model for FileTable {
    ghost use Rattle.std.specs.Coded.{coded_list, coded_ℕ};
    ghost use Rattle.std.specs.FinMap.{code};
    ghost use Rattle.xod_volume.specs.Files.{Files, files_from};

    ghost Value = { Files };

    ghost coded = { code coded_ℕ (coded_list coded_ℕ) };

    ghost view = { λ table. files_from table.bodies.entries };
}

impl FileTable {
    /// No files, which takes no memory.
    pub fn new(alloc: Global) -> Self
        ensures { result ≡ no_files }
    {
        FileTable {
            bodies: BTreeMap::new(alloc),
        }
    }

    /// How many files there are.
    pub fn count(&self) -> usize
        ensures number { result ≡ len self.now }
        ensures small { result < 2 ^ 63 }
    {
        self.bodies.len()
    }

    /// The body of a file.
    pub fn body(&self, file: u64) -> Option<&Body>
        ensures { option_copied result ≡ get self.now file }
    {
        self.bodies.get(&file)
    }

    /// The bytes of a file, copied.
    pub fn content(&self, alloc: Global, file: u64) -> Result<Option<Bytes>, Memory>
        ensures { IfOk result (λ content. content ≡ get self.now file) }
    {
        match self.body(file) {
            Some(body) => Ok(Some(body.copied(alloc)?)),
            None => Ok(None),
        }
    }

    /// How many bytes a file has, 0 where it is absent.
    pub fn size(&self, file: u64) -> u64
        ensures { result ≡ size_of self.now file }
    {
        match self.body(file) {
            Some(body) => body.len(),
            None => 0,
        }
    }

    /// Fills `out` with bytes of a file from a place on, as far as they go, and gives how many those are.
    pub fn read(&self, file: u64, at: u64, out: &mut [u8]) -> usize
        ensures { Filled (bytes_of self.now file) at out.old out.new result }
    {
        match self.body(file) {
            Some(body) => body.read(at, out),
            None => 0,
        }
    }

    /// The files that the list names, as they are. No byte is copied.
    pub fn share(&mut self, alloc: Global, list: &[u64]) -> Result<Self, Memory>
        ensures same { self.new ≡ self.old }
        ensures shared { IfOk result (λ shared. shared ≡ lent_of list.now self.old) }
    {
        let mut shared = FileTable::new(alloc);
        for file in list {
            if let Some(body) = self.share_body(alloc, *file)? {
                shared.insert(*file, body)?;
            }
        }
        Ok(shared)
    }

    /// The body of a file once more. No byte is copied.
    fn share_body(&mut self, alloc: Global, file: u64) -> Result<Option<Body>, Memory>
        ensures same { self.new ≡ self.old }
        ensures shared { IfOk result (λ body. body ≡ get self.old file) }
    {
        let Some(body) = self.bodies.get_mut(&file) else {
            return Ok(None);
        };
        Ok(Some(body.share(alloc)?))
    }

    /// The numbers of the files, in rising order.
    pub fn numbers(&self, alloc: Global) -> Result<Vec<u64>, Memory>
        ensures { IfOk result (λ numbers. numbers.items ≡ keys self.now) }
    {
        Ok(keys_of(&self.bodies, alloc)?)
    }

    /// Puts a file in, in place of one with its number. A refusal leaves the files as they were.
    pub fn insert(&mut self, file: u64, body: Body) -> Result<(), Memory>
        ensures { self.new ≡ (if is_ok result then insert self.old file body else self.old) }
    {
        self.bodies.insert(file, body)?;
        Ok(())
    }

    /// Takes a file out.
    pub fn remove(&mut self, file: u64)
        ensures { self.new ≡ remove self.old file }
    {
        self.bodies.remove(&file);
    }

    /// Puts bytes at the end of a file. A refusal leaves the files as they were.
    pub fn append(&mut self, file: u64, more: &[u8]) -> Result<(), Memory>
        requires { IsSome (get self.old file) }
        ensures { self.new ≡ (if is_ok result then insert self.old file (bytes_of self.old file ++ more.now) else self.old) }
    {
        match self.bodies.get_mut(&file) {
            Some(body) => body.append(more),
            None => unreachable!(),
        }
    }

    /// Writes bytes over those of a file from a place on. Where a lease has some of those, nothing is changed.
    pub fn overwrite(&mut self, file: u64, at: u64, bytes: &[u8]) -> bool
        requires exists { IsSome (get self.old file) }
        requires within { at + length bytes.now ≤ size_of self.old file }
        ensures { MatchBool result
            (self.new ≡ insert self.old file (overwritten (bytes_of self.old file) at bytes.now))
            (self.new ≡ self.old) }
    {
        match self.bodies.get_mut(&file) {
            Some(body) => body.overwrite(at, bytes),
            None => unreachable!(),
        }
    }

    /// Keeps the first bytes of a file alone.
    pub fn cut(&mut self, file: u64, length: u64)
        requires { IsSome (get self.old file) }
        ensures { self.new ≡ insert self.old file (take length (bytes_of self.old file)) }
    {
        match self.bodies.get_mut(&file) {
            Some(body) => body.cut(length),
            None => unreachable!(),
        }
    }
}

/// The keys of a tree of bodies, in rising order.
fn keys_of(bodies: &BTreeMap<u64, Body>, alloc: Global) -> Result<Vec<u64>, AllocError>
    ensures items { IfOk result (λ numbers. numbers.items ≡ tree.keys bodies.now) }
    ensures ordered { tree.IsOrdered nat_cmp bodies.now }
{
    bodies.keys().copied().collect(alloc)
}
