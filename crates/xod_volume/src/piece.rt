//! A piece of a body: bytes on the heap that a volume and its leases may have together.
//!
//! `Pieces` makes one of bytes that it is given, without copying them. A piece that somebody else has too can be cut,
//! since each that has it keeps a length of its own, and it can't be written to.
ghost use Rattle.std.specs.Prelude.{◌≡◌, ◌≤◌, ◌+◌, ◌++◌, length, map, take, IfOk, MatchResult, MatchBool, if◌then◌else◌};
ghost use Rattle.std.specs.List.{concat};
ghost use Rattle.xod_volume.specs.Files.{overwritten};

use std::alloc::Global;
use std::marker::Model;
use std::sync::Arc;
use xod_base::Memory;

/// The first bytes of a list, as many as are in use.
#[derive(Drop)]
pub struct Piece {
    bytes: Arc<Vec<u8>>,
    used: usize,
}

impl Model for Piece {
    ghost use Rattle.std.specs.Prelude.{◌≤◌, ℕ, List, length, take};
    ghost use Rattle.std.specs.Coded.{coded_list, coded_ℕ};
    ghost use Rattle.std.specs.Arc.{arc_value};

    ghost Value = { List ℕ };

    ghost coded = { coded_list coded_ℕ };

    ghost view = { λ piece. take piece.used (arc_value piece.bytes).items };

    ghost invariant = { λ piece. piece.used ≤ length (arc_value piece.bytes).items };
}

impl Piece {
    /// A piece of these bytes, which are not copied. A refusal gives them back.
    pub fn new(alloc: Global, bytes: Vec<u8>) -> Result<Self, Vec<u8>>
        ensures { MatchResult result (λ piece. piece ≡ bytes.items) (λ back. back.items ≡ bytes.items) }
    {
        let used = bytes.len();
        match Arc::new(alloc, bytes) {
            Ok(bytes) => Ok(Piece { bytes, used }),
            Err(refused) => Err(refused.value),
        }
    }

    /// The same piece once more. No byte is copied.
    pub fn share(&self) -> Result<Self, Memory>
        ensures { IfOk result (λ piece. piece ≡ self.now) }
    {
        Ok(Piece {
            bytes: Arc::try_clone(&self.bytes)?,
            used: self.used,
        })
    }

    /// How many bytes are in use.
    pub fn len(&self) -> usize
        ensures { result ≡ length self.now }
    {
        self.used
    }

    /// The bytes in use.
    pub fn as_slice(&self) -> &[u8]
        ensures { result.now ≡ self.now }
    {
        &self.bytes[..self.used]
    }

    /// Puts bytes behind those in use if nobody else has the piece, and says whether it did. A refusal changes no byte.
    ///
    /// Bytes that a cut left behind those in use are dropped, since only others who had the piece had them in use.
    pub fn extend(&mut self, more: &[u8]) -> Result<bool, Memory>
        ensures { MatchResult result (λ done. self.new ≡ (if done then self.old ++ more.now else self.old))
            (λ _. self.new ≡ self.old) }
    {
        let Some(bytes) = Arc::get_mut(&mut self.bytes) else {
            return Ok(false);
        };
        bytes.truncate(self.used);
        bytes.extend_from_slice(more)?;
        self.used = bytes.len();
        Ok(true)
    }

    /// Keeps the first bytes in use alone. Who else has the piece keeps all of them.
    pub fn cut(&mut self, length: usize)
        ensures { self.new ≡ take length self.old }
    {
        self.used = self.used.min(length);
    }
}

/// Writes bytes over those of the pieces from a place on, if nobody else has a piece that they go to.
///
/// The pieces further on are written to first, while this one is held, so a refusal changes none. It calls itself for
/// each piece up to the last that the bytes go to, so a caller leaves out those that end before the place.
pub fn overwrite_pieces(pieces: &mut [Piece], at: usize, bytes: &[u8]) -> bool
    requires { at + length bytes.now ≤ length (concat pieces.old) }
    ensures bytes { MatchBool result (concat pieces.new ≡ overwritten (concat pieces.old) at bytes.now)
        (concat pieces.new ≡ concat pieces.old) }
    ensures sizes { map length pieces.new ≡ map length pieces.old }
{
    if bytes.is_empty() {
        return true;
    }
    let Some((first, rest)) = pieces.split_first_mut() else {
        unreachable!();
    };
    let size = first.len();
    if at >= size {
        return overwrite_pieces(rest, at - size, bytes);
    }
    let (here, further) = bytes.split_at(bytes.len().min(size - at));
    let Some(held) = Arc::get_mut(&mut first.bytes) else {
        return false;
    };
    if !overwrite_pieces(rest, 0, further) {
        return false;
    }
    put_over(held, at, here);
    true
}

/// Writes bytes over those from a place on.
pub fn put_over(bytes: &mut Vec<u8>, at: usize, patch: &[u8])
    requires { at + length patch.now ≤ length bytes.old.items }
    ensures { bytes.new.items ≡ overwritten bytes.old.items at patch.now }
{
    bytes[at..at + patch.len()].copy_from_slice(patch);
}
