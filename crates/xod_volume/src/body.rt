//! The bytes of one file in memory.
//!
//! `FileTable` keeps a body for each file. Those bytes that were lent stand in pieces that the leases have too, and
//! those that came since in a list of the body's own: so lending copies no bytes, and neither does an append after it.
//! Where the body has no bytes of its own and nobody else has the last piece, new bytes go to the end of that piece.
ghost use Rattle.std.specs.Prelude.{◌≡◌, ◌≤◌, ◌+◌, ◌++◌, [], length, take, IfOk, MatchBool, is_ok, if◌then◌else◌};
ghost use Rattle.xod_volume.specs.Files.{overwritten};
ghost use Rattle.xod_volume.specs.Leases.{Filled};

use crate::piece::put_over;
use crate::pieces::{Pieces, fill_behind};
use std::alloc::Global;
use std::marker::Model;
use xod_base::{Bytes, Memory};

/// The bytes of a file: the pieces that were shared, and after them those that no lease has.
#[derive(Drop)]
pub struct Body {
    pub(crate) shared: Pieces,
    own: Vec<u8>,
}

impl Model for Body {
    ghost use Rattle.std.specs.Prelude.{◌<◌, ◌+◌, ◌^◌, ◌++◌, ℕ, List, length};
    ghost use Rattle.std.specs.Coded.{coded_list, coded_ℕ};

    ghost Value = { List ℕ };

    ghost coded = { coded_list coded_ℕ };

    ghost view = { λ body. body.shared ++ body.own.items };

    ghost invariant = { λ body. length body.shared + length body.own.items < 2 ^ 64 };
}

impl Body {
    /// No bytes, which takes no memory.
    pub fn new(alloc: Global) -> Self
        ensures { result ≡ [] }
    {
        Body {
            shared: Pieces::new(alloc),
            own: Vec::new(alloc),
        }
    }

    /// These bytes, copied.
    pub fn from_bytes(alloc: Global, bytes: &[u8]) -> Result<Self, Memory>
        ensures { IfOk result (λ body. body ≡ bytes.now) }
    {
        let own = Vec::from_slice(alloc, bytes)?;
        Ok(Body {
            shared: Pieces::new(alloc),
            own,
        })
    }

    /// The bytes, copied.
    pub fn copied(&self, alloc: Global) -> Result<Bytes, Memory>
        ensures { IfOk result (λ bytes. bytes ≡ self.now) }
    {
        let mut bytes = self.shared.copied(alloc)?;
        bytes.extend_from_slice(&self.own)?;
        Ok(Bytes::from_vec(bytes))
    }

    /// How many bytes there are.
    pub fn len(&self) -> u64
        ensures { result ≡ length self.now }
    {
        (self.shared.len() + self.own.len()) as u64
    }

    /// Fills `out` from a place on, as far as the bytes go, and gives how many those are.
    pub fn read(&self, at: u64, out: &mut [u8]) -> usize
        ensures { Filled self.now at out.old out.new result }
    {
        let at = at as usize;
        let n = self.shared.read(at, out);
        let from = at.saturating_sub(self.shared.len());
        n + fill_behind(&self.own, from, out, n)
    }

    /// Puts bytes at the end. A refusal leaves them as they were.
    pub fn append(&mut self, more: &[u8]) -> Result<(), Memory>
        ensures { self.new ≡ (if is_ok result then self.old ++ more.now else self.old) }
    {
        let length = self.shared.len() + self.own.len();
        if length.checked_add(more.len()).is_none() {
            return Err(Memory);
        }
        if self.own.is_empty() && self.shared.extend(more)? {
            return Ok(());
        }
        self.own.extend_from_slice(more)?;
        Ok(())
    }

    /// Writes bytes over those from a place on. Where a lease has some of those, nothing is changed.
    pub fn overwrite(&mut self, at: u64, bytes: &[u8]) -> bool
        requires { at + length bytes.now ≤ length self.old }
        ensures { MatchBool result (self.new ≡ overwritten self.old at bytes.now) (self.new ≡ self.old) }
    {
        let at = at as usize;
        let lent = self.shared.len();
        if at >= lent {
            put_over(&mut self.own, at - lent, bytes);
            return true;
        }
        let (front, back) = bytes.split_at(bytes.len().min(lent - at));
        if !self.shared.overwrite(at, front) {
            return false;
        }
        put_over(&mut self.own, 0, back);
        true
    }

    /// Keeps the first bytes alone, which takes no memory. A lease keeps all that it has.
    pub fn cut(&mut self, length: u64)
        ensures { self.new ≡ take length self.old }
    {
        let length = length as usize;
        self.own.truncate(length.saturating_sub(self.shared.len()));
        self.shared.cut(length);
    }

    /// The same bytes once more. None is copied: they become pieces that both have.
    pub fn share(&mut self, alloc: Global) -> Result<Self, Memory>
        ensures same { self.new ≡ self.old }
        ensures shared { IfOk result (λ body. body ≡ self.old) }
    {
        if !self.own.is_empty() {
            let own = std::mem::replace(&mut self.own, Vec::new(alloc));
            if let Err(back) = self.shared.add(alloc, own) {
                self.own = back;
                return Err(Memory);
            }
        }
        Ok(Body {
            shared: self.shared.share(alloc)?,
            own: Vec::new(alloc),
        })
    }
}
