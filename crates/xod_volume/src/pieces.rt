//! Pieces one after another, seen as the bytes that they have in all.
//!
//! `Body` keeps here the bytes that it has lent, and gives each lease the same pieces. No byte is copied when one is put
//! in, shared or cut. While nobody else has the last piece, bytes can be put at its end, so that no piece comes about for
//! them. The piece that has the byte at a place is found by halving, and a read goes from there to the last that it needs.
ghost use Rattle.std.specs.Prelude.{◌≡◌, ◌≤◌, ◌<◌, ◌+◌, ◌^◌, ◌++◌, [], length, map, take, drop, IfOk, MatchBool, MatchResult, if◌then◌else◌};
ghost use Rattle.std.specs.List.{concat};
ghost use Rattle.xod_volume.specs.Files.{overwritten};
ghost use Rattle.xod_volume.specs.Leases.{Filled};
ghost use Rattle.xod_volume.specs.Places.{IsPlace, starts_of};

use crate::piece::{Piece, overwrite_pieces};
use std::alloc::Global;
use std::marker::Model;
use xod_base::Memory;

/// Pieces in order, where each begins, and how many bytes they have in all.
#[derive(Drop)]
pub struct Pieces {
    pub(crate) list: Vec<Piece>,
    starts: Vec<usize>,
    size: usize,
}

impl Model for Pieces {
    ghost use Rattle.std.specs.Prelude.{◌≡◌, ℕ, List, length};
    ghost use Rattle.std.specs.List.{concat};
    ghost use Rattle.xod_volume.specs.Places.{starts_of};
    ghost use Rattle.std.specs.Coded.{coded_list, coded_ℕ};

    ghost Value = { List ℕ };

    ghost coded = { coded_list coded_ℕ };

    ghost view = { λ pieces. concat pieces.list.items };

    ghost invariant = { λ pieces. (pieces.size ≡ length (concat pieces.list.items))
        × (pieces.starts.items ≡ starts_of pieces.list.items) };
}

impl Pieces {
    /// No piece, which takes no memory.
    pub fn new(alloc: Global) -> Self
        ensures { result ≡ [] }
    {
        Pieces {
            list: Vec::new(alloc),
            starts: Vec::new(alloc),
            size: 0,
        }
    }

    /// How many bytes there are.
    pub fn len(&self) -> usize
        ensures { result ≡ length self.now }
    {
        self.size
    }

    /// Puts bytes at the end, which are not copied. A refusal gives them back and changes nothing.
    pub fn add(&mut self, alloc: Global, bytes: Vec<u8>) -> Result<(), Vec<u8>>
        requires { length self.old + length bytes.items < 2 ^ 64 }
        ensures { MatchResult result (λ _. self.new ≡ self.old ++ bytes.items)
            (λ back. (self.new ≡ self.old) × (back.items ≡ bytes.items)) }
    {
        if self.list.reserve(1).is_err() || self.starts.reserve(1).is_err() {
            return Err(bytes);
        }
        let piece = Piece::new(alloc, bytes)?;
        self.starts.push_reserved(self.size);
        self.size += piece.len();
        self.list.push_reserved(piece);
        Ok(())
    }

    /// Puts bytes at the end of the last piece if nobody else has it, and says whether it did. A refusal changes nothing.
    pub fn extend(&mut self, more: &[u8]) -> Result<bool, Memory>
        requires { length self.old + length more.now < 2 ^ 64 }
        ensures { MatchResult result (λ done. self.new ≡ (if done then self.old ++ more.now else self.old))
            (λ _. self.new ≡ self.old) }
    {
        let Some(last) = self.list.last_mut() else {
            return Ok(false);
        };
        let done = last.extend(more)?;
        if done {
            self.size += more.len();
        }
        Ok(done)
    }

    /// The same pieces once more. No byte is copied.
    pub fn share(&self, alloc: Global) -> Result<Self, Memory>
        ensures { IfOk result (λ pieces. pieces ≡ self.now) }
    {
        let mut list = Vec::with_capacity(alloc, self.list.len())?;
        for piece in &self.list {
            list.push(piece.share()?)?;
        }
        let starts = Vec::from_slice(alloc, &self.starts)?;
        Ok(Pieces {
            list,
            starts,
            size: self.size,
        })
    }

    /// The bytes, copied.
    pub fn copied(&self, alloc: Global) -> Result<Vec<u8>, Memory>
        ensures { IfOk result (λ bytes. bytes.items ≡ self.now) }
    {
        let mut bytes = Vec::new(alloc);
        for piece in &self.list {
            bytes.extend_from_slice(piece.as_slice())?;
        }
        Ok(bytes)
    }

    /// Fills `out` from a place on, as far as the bytes go, and gives how many those are.
    pub fn read(&self, at: usize, out: &mut [u8]) -> usize
        ensures { Filled self.now at out.old out.new result }
    {
        if at >= self.size {
            return 0;
        }
        let (index, within) = place_of(&self.list, &self.starts, at);
        let (_, behind) = self.list.split_at(index);
        read_pieces(behind, within, out)
    }

    /// Writes bytes over those from a place on. Where somebody else has one of the pieces, nothing is changed.
    pub fn overwrite(&mut self, at: usize, bytes: &[u8]) -> bool
        requires { at + length bytes.now ≤ length self.old }
        ensures { MatchBool result (self.new ≡ overwritten self.old at bytes.now) (self.new ≡ self.old) }
    {
        overwrite_from(&mut self.list, &self.starts, at, bytes)
    }

    /// Keeps the first bytes alone.
    pub fn cut(&mut self, length: usize)
        ensures { self.new ≡ take length self.old }
    {
        if length < self.size {
            cut_pieces(&mut self.list, &mut self.starts, length);
            self.size = length;
        }
    }
}

/// Which piece has the byte at a place, and how many bytes of that piece come before it.
fn place_of(pieces: &[Piece], starts: &[usize], at: usize) -> (usize, usize)
    requires inside { at < length (concat pieces.now) }
    requires starts { starts.now ≡ starts_of pieces.now }
    ensures { IsPlace pieces.now at result.0 result.1 }
{
    // The byte is in a piece from `low` on and before `high`.
    let mut low = 0;
    let mut high = pieces.len();
    while high - low > 1 {
        let middle = low + (high - low) / 2;
        if starts[middle] <= at {
            low = middle;
        } else {
            high = middle;
        }
    }
    (low, at - starts[low])
}

/// Fills `out` from a place in the first of the pieces on, as far as the bytes go, and gives how many those are.
fn read_pieces(pieces: &[Piece], within: usize, out: &mut [u8]) -> usize
    ensures { Filled (concat pieces.now) within out.old out.new result }
{
    let mut from = within;
    let mut filled = 0;
    for piece in pieces {
        if filled == out.len() {
            return filled;
        }
        filled += fill_behind(piece.as_slice(), from, out, filled);
        from = from.saturating_sub(piece.len());
    }
    filled
}

/// Writes bytes over those of the pieces from a place on. Where somebody else has one that they go to, nothing is changed.
fn overwrite_from(pieces: &mut [Piece], starts: &[usize], at: usize, bytes: &[u8]) -> bool
    requires within { at + length bytes.now ≤ length (concat pieces.old) }
    requires starts { starts.now ≡ starts_of pieces.old }
    ensures bytes { MatchBool result (concat pieces.new ≡ overwritten (concat pieces.old) at bytes.now)
        (concat pieces.new ≡ concat pieces.old) }
    ensures sizes { map length pieces.new ≡ map length pieces.old }
{
    if bytes.is_empty() {
        return true;
    }
    let (index, within) = place_of(pieces, starts, at);
    let (_, behind) = pieces.split_at_mut(index);
    overwrite_pieces(behind, within, bytes)
}

/// Keeps the first bytes alone, and no piece that has none of them.
fn cut_pieces(pieces: &mut Vec<Piece>, starts: &mut Vec<usize>, kept: usize)
    requires inside { kept < length (concat pieces.old.items) }
    requires starts { starts.old.items ≡ starts_of pieces.old.items }
    ensures bytes { concat pieces.new.items ≡ take kept (concat pieces.old.items) }
    ensures starts { starts.new.items ≡ starts_of pieces.new.items }
{
    let (index, within) = place_of(pieces, starts, kept);
    if within > 0 {
        pieces[index].cut(within);
        pieces.truncate(index + 1);
        starts.truncate(index + 1);
    } else {
        pieces.truncate(index);
        starts.truncate(index);
    }
}

/// Fills `out` from a place on, as far as the bytes go, and gives how many those are.
fn fill(bytes: &[u8], at: usize, out: &mut [u8]) -> usize
    ensures { Filled bytes.now at out.old out.new result }
{
    let n = out.len().min(bytes.len().saturating_sub(at));
    if n > 0 {
        out[..n].copy_from_slice(&bytes[at..at + n]);
    }
    n
}

/// Fills the bytes of `out` behind the first ones, as far as the bytes from a place on go, and gives how many those are.
pub fn fill_behind(bytes: &[u8], at: usize, out: &mut [u8], first: usize) -> usize
    requires { first ≤ length out.old }
    ensures filled { Filled bytes.now at (drop first out.old) (drop first out.new) result }
    ensures first_stay { take first out.new ≡ take first out.old }
{
    let (_, behind) = out.split_at_mut(first);
    fill(bytes, at, behind)
}
