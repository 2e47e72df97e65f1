//! The touched keys of one tree, by rising key, in pieces.
//!
//! A new touch moves those behind it in its piece alone, and a piece that is full is cut in two before. A key is looked
//! up by halving, among the pieces and then within one. That needs no key of its own, so nothing here takes memory but
//! a touch.
ghost use Rattle.std.specs.Prelude.{◌≡◌, ◌↔◌, ◌≤◌, ◌<◌, ◌+◌, ◌-◌, [], false, slice_index_or, length, IsTrue, IfOk, is_ok, if◌then◌else◌};
ghost use Rattle.std.specs.FinMap.{empty, entries, find, get as mark_of, insert, put};
ghost use Rattle.std.specs.Option.{option_copied};
ghost use Rattle.xod_base.specs.Values.{bytes_cmp};
ghost use Rattle.xod_overlay.specs.Pieces.{begins_by, is_full_without, joined, rest_of, with_cut, IsInPieces, IsSeat};
ghost use Rattle.xod_overlay.specs.Places.{from, passes};
ghost use Rattle.xod_overlay.specs.Restoring.{restored, restored_keys};

use crate::piece::Piece;
use crate::rest::Rest;
use std::alloc::Global;
use std::marker::Model;
use xod_base::{Bytes, Memory};

/// The touches of one tree, each key once.
#[derive(Debug, Drop)]
pub(crate) struct TouchedKeys {
    pieces: Vec<Piece>,
}

impl Model for TouchedKeys {
    ghost use Rattle.std.specs.Prelude.{ℕ, List};
    ghost use Rattle.std.specs.Coded.{coded_list, coded_option, coded_ℕ};
    ghost use Rattle.std.specs.FinMap.{code, from_sorted};
    ghost use Rattle.xod_overlay.specs.Marks.{TouchMap};
    ghost use Rattle.xod_overlay.specs.Pieces.{joined, IsInPieces};

    ghost Value = { TouchMap };

    ghost coded = { code (coded_list coded_ℕ) (coded_option (coded_list coded_ℕ)) };

    ghost view = { λ keys. from_sorted (joined keys.pieces.items) };

    ghost invariant = { λ keys. IsInPieces keys.pieces.items };
}

/// The piece that a key belongs to: the last that begins at the key or before it, or else the first.
fn seat_of(pieces: &[Piece], key: &[u8]) -> usize
    requires { IsInPieces pieces.now }
    ensures seat { IsSeat key.now pieces.now result }
    ensures last { result ≤ length pieces.now - 1 }
{
    let begun = pieces.partition_point(|piece| piece.begins_by(key));
    begun.saturating_sub(1)
}

/// What stands at a key in some pieces.
fn mark_in<'a>(pieces: &'a [Piece], key: &[u8]) -> Option<&'a Option<Bytes>>
    requires { IsInPieces pieces.now }
    ensures { option_copied result ≡ find bytes_cmp key.now (joined pieces.now) }
{
    let piece = pieces.get(seat_of(pieces, key))?;
    piece.mark(key)
}

/// The touches of some pieces from a key on, or above it.
fn rest_from<'a>(pieces: &'a [Piece], key: &[u8], strict: bool) -> Rest<'a>
    requires { IsInPieces pieces.now }
    ensures { rest_of result ≡ from (passes strict key.now) (joined pieces.now) }
{
    let (_, behind) = pieces.split_at(seat_of(pieces, key));
    match behind.split_first() {
        None => Rest::none(),
        Some((piece, later)) => Rest::new(piece.touches_from(key, strict), later),
    }
}

/// Cuts a piece in two. A refusal leaves all pieces as they were.
fn cut_at(pieces: &mut Vec<Piece>, at: usize) -> Result<(), Memory>
    requires { at < length pieces.old.items }
    ensures { pieces.new.items
        ≡ (if is_ok result then with_cut pieces.old.items at else pieces.old.items) }
{
    pieces.reserve(1)?;
    let back = pieces[at].cut()?;
    pieces.insert(at + 1, back)?;
    Ok(())
}

/// The half that a key belongs to, once the piece at a place is cut in two.
fn half_of(pieces: &[Piece], at: usize, key: &[u8]) -> usize
    requires { at + 1 < length pieces.now }
    ensures { result
        ≡ (if begins_by key.now (slice_index_or pieces.now (at + 1) []) then at + 1 else at) }
{
    if pieces[at + 1].begins_by(key) {
        at + 1
    } else {
        at
    }
}

/// The piece that a key belongs to, with room for it: one that is full is cut in two. The touches stay.
fn seat_with_room(pieces: &mut Vec<Piece>, key: &[u8]) -> Result<usize, Memory>
    requires in_pieces { IsInPieces pieces.old.items }
    requires some { 0 < length pieces.old.items }
    ensures in_pieces { IsInPieces pieces.new.items }
    ensures same { joined pieces.new.items ≡ joined pieces.old.items }
    ensures seat { IfOk result (IsSeat key.now pieces.new.items) }
    ensures within { IfOk result (λ at. at < length pieces.new.items) }
    ensures room { IfOk result (λ at.
        is_full_without key.now (slice_index_or pieces.new.items at []) ≡ false) }
{
    let at = seat_of(pieces.as_slice(), key);
    if !pieces[at].is_full_without(key) {
        return Ok(at);
    }
    cut_at(pieces, at)?;
    Ok(half_of(pieces.as_slice(), at, key))
}

/// Touches a key in some pieces, and hands out what stood there. A refusal leaves the touches as they were.
fn exchange_in(
    pieces: &mut Vec<Piece>,
    alloc: Global,
    key: &[u8],
    mark: Option<Bytes>,
) -> Result<Option<Option<Bytes>>, Memory>
    requires { IsInPieces pieces.old.items }
    ensures in_pieces { IsInPieces pieces.new.items }
    ensures touches { joined pieces.new.items
        ≡ (if is_ok result then put bytes_cmp key.now mark (joined pieces.old.items)
        else joined pieces.old.items) }
    ensures before { IfOk result (λ before.
        before ≡ find bytes_cmp key.now (joined pieces.old.items)) }
{
    if pieces.is_empty() {
        pieces.push(Piece::of_one(alloc, key, mark)?)?;
        return Ok(None);
    }
    let at = seat_with_room(pieces, key)?;
    let before = pieces[at].exchange(alloc, key, mark)?;
    Ok(before)
}

/// Gives a touched key in some pieces the mark that stood there before, or takes it out where it was not touched. A piece
/// that gets empty goes.
fn restore_in(pieces: &mut Vec<Piece>, key: &[u8], before: Option<Option<Bytes>>)
    requires { IsInPieces pieces.old.items }
    ensures in_pieces { IsInPieces pieces.new.items }
    ensures touches { joined pieces.new.items ≡ restored key.now before (joined pieces.old.items) }
{
    if pieces.is_empty() {
        return;
    }
    let at = seat_of(pieces.as_slice(), key);
    pieces[at].restore(key, before);
    if pieces[at].is_empty() {
        pieces.remove(at);
    }
}

impl TouchedKeys {
    /// No touched keys, which takes no memory.
    pub(crate) fn new(alloc: Global) -> Self
        ensures { result ≡ empty }
    {
        TouchedKeys {
            pieces: Vec::new(alloc),
        }
    }

    /// Whether no key is touched.
    pub(crate) fn is_empty(&self) -> bool
        ensures { IsTrue result ↔ (self.now ≡ empty) }
    {
        self.pieces.as_slice().is_empty()
    }

    /// The touches from a key on, or above it, by rising key.
    pub(crate) fn touches_from(&self, key: &[u8], strict: bool) -> Rest<'_>
        ensures { rest_of result ≡ from (passes strict key.now) (entries self.now) }
    {
        rest_from(self.pieces.as_slice(), key, strict)
    }

    /// All touches, by rising key.
    pub(crate) fn touches(&self) -> Rest<'_>
        ensures { rest_of result ≡ entries self.now }
    {
        Rest::new(&[], self.pieces.as_slice())
    }

    /// What stands at a key, and `None` where it is not touched.
    pub(crate) fn get(&self, key: &[u8]) -> Option<&Option<Bytes>>
        ensures { option_copied result ≡ mark_of self.now key.now }
    {
        mark_in(self.pieces.as_slice(), key)
    }

    /// Touches a key, and hands out what stood there, `None` where it was not touched. A refusal leaves all as it was.
    pub(crate) fn exchange(
        &mut self,
        alloc: Global,
        key: &[u8],
        mark: Option<Bytes>,
    ) -> Result<Option<Option<Bytes>>, Memory>
        ensures keys { self.new ≡ (if is_ok result then insert self.old key.now mark else self.old) }
        ensures before { IfOk result (λ before. before ≡ mark_of self.old key.now) }
    {
        exchange_in(&mut self.pieces, alloc, key, mark)
    }

    /// Gives a touched key the mark that stood there before, or takes it out where it was not touched. Takes no memory.
    pub(crate) fn restore(&mut self, key: &[u8], before: Option<Option<Bytes>>)
        ensures { self.new ≡ restored_keys self.old key.now before }
    {
        restore_in(&mut self.pieces, key, before)
    }
}
