//! A piece of the touched keys of one tree, by rising key.
//!
//! A key is looked up by halving. That needs no key of its own, so nothing here takes memory but a new touch and a cut.
ghost use Rattle.std.specs.Prelude.{◌≡◌, ◌≤◌, ◌/◌, ◌==◌, nat_le, length, not, take, drop, T, IfOk, List, [], ◌∷◌, is_ok, if◌then◌else◌, slice_get};
ghost use Rattle.std.specs.FinMap.{find, is_sorted, put};
ghost use Rattle.std.specs.Option.{option_copied};
ghost use Rattle.xod_base.specs.Values.{bytes_cmp};
ghost use Rattle.xod_overlay.specs.Pieces.{begins_by, is_full_without};
ghost use Rattle.xod_overlay.specs.Places.{from, mark_at, passes, place, stands};
ghost use Rattle.xod_overlay.specs.Restoring.{restored};

use std::alloc::Global;
use std::cmp::Ordering;
use std::marker::Model;
use std::mem::replace;
use xod_base::{Bytes, Memory};

/// A touched key, and its value or, where it is removed, none.
pub(crate) type Touch = (Bytes, Option<Bytes>);

/// How many touches a piece has when it is full.
const MOST: usize = 256;

/// Some touches of one tree.
#[derive(Debug, Drop)]
pub(crate) struct Piece {
    touches: Vec<Touch>,
}

impl Model for Piece {
    ghost use Rattle.std.specs.Prelude.{List};
    ghost use Rattle.std.specs.Coded.{coded_list, coded_option, coded_ℕ, coded×};
    ghost use Rattle.xod_overlay.specs.Marks.{Touch};

    ghost Value = { List Touch };

    ghost coded = { coded_list (coded× (coded_list coded_ℕ) (coded_option (coded_list coded_ℕ))) };

    ghost view = { λ piece. piece.touches.items };
}

/// Whether a key comes before those that are sought: the ones above a key or, where it may be met, not below it.
fn is_before(key: &[u8], strict: bool, other: &[u8]) -> bool
    ensures { result ≡ not (passes strict key.now other.now) }
{
    match key.cmp(other) {
        Ordering::Less => false,
        Ordering::Equal => strict,
        Ordering::Greater => true,
    }
}

/// How many touches come before those that are sought.
fn place_of(touches: &[Touch], key: &[u8], strict: bool) -> usize
    requires { T (is_sorted bytes_cmp touches.now) }
    ensures place { result ≡ place (passes strict key.now) touches.now }
    ensures bound { result ≤ length touches.now }
{
    touches.partition_point(|touch| is_before(key, strict, touch.0.as_slice()))
}

/// The mark at a place, where a key stands there.
fn mark_of_key<'a>(touches: &'a [Touch], at: usize, key: &[u8]) -> Option<&'a Option<Bytes>>
    ensures { option_copied result ≡ mark_at key.now (slice_get touches.now at) }
{
    let touch = touches.get(at)?;
    match key.cmp(touch.0.as_slice()) {
        Ordering::Equal => Some(&touch.1),
        _ => None,
    }
}

/// Whether a key stands at a place.
fn stands_at(touches: &[Touch], at: usize, key: &[u8]) -> bool
    ensures { result ≡ stands key.now touches.now at }
{
    mark_of_key(touches, at, key).is_some()
}

impl Piece {
    /// The piece with one touch.
    pub(crate) fn of_one(alloc: Global, key: &[u8], mark: Option<Bytes>) -> Result<Self, Memory>
        ensures { IfOk result (λ piece. piece ≡ (key.now, mark) ∷ []) }
    {
        let mut piece = Piece {
            touches: Vec::new(alloc),
        };
        piece.exchange(alloc, key, mark)?;
        Ok(piece)
    }

    /// The touches.
    pub(crate) fn as_slice(&self) -> &[Touch]
        ensures { result.now ≡ self.now }
    {
        self.touches.as_slice()
    }

    /// Whether the piece begins at a key or before it.
    pub(crate) fn begins_by(&self, key: &[u8]) -> bool
        ensures { result ≡ begins_by key.now self.now }
    {
        match self.touches.as_slice().first() {
            None => false,
            Some(touch) => is_before(key, true, touch.0.as_slice()),
        }
    }

    /// Whether the piece is full.
    fn is_full(&self) -> bool
        ensures { result ≡ nat_le MOST (length self.now) }
    {
        self.touches.len() >= MOST
    }

    /// Whether the piece has to be cut in two before it takes a key: it is full, and the key is not in it.
    pub(crate) fn is_full_without(&self, key: &[u8]) -> bool
        requires { T (is_sorted bytes_cmp self.now) }
        ensures { result ≡ is_full_without key.now self.now }
    {
        self.is_full() && self.mark(key).is_none()
    }

    /// The touches from a key on, or above it.
    pub(crate) fn touches_from(&self, key: &[u8], strict: bool) -> &[Touch]
        requires { T (is_sorted bytes_cmp self.now) }
        ensures { result.now ≡ from (passes strict key.now) self.now }
    {
        let touches = self.touches.as_slice();
        let (_, from) = touches.split_at(place_of(touches, key, strict));
        from
    }

    /// What stands at a key, and `None` where it is not touched.
    pub(crate) fn mark(&self, key: &[u8]) -> Option<&Option<Bytes>>
        requires { T (is_sorted bytes_cmp self.now) }
        ensures { option_copied result ≡ find bytes_cmp key.now self.now }
    {
        let at = place_of(self.touches.as_slice(), key, false);
        mark_of_key(self.touches.as_slice(), at, key)
    }

    /// Touches a key, and hands out what stood there, `None` where it was not touched. A refusal leaves the piece as it
    /// was.
    pub(crate) fn exchange(
        &mut self,
        alloc: Global,
        key: &[u8],
        mark: Option<Bytes>,
    ) -> Result<Option<Option<Bytes>>, Memory>
        requires { T (is_sorted bytes_cmp self.old) }
        ensures touches { self.new
            ≡ (if is_ok result then put bytes_cmp key.now mark self.old else self.old) }
        ensures before { IfOk result (λ before. before ≡ find bytes_cmp key.now self.old) }
    {
        let at = place_of(self.touches.as_slice(), key, false);
        if stands_at(self.touches.as_slice(), at, key) {
            let before = replace(&mut self.touches[at].1, mark);
            return Ok(Some(before));
        }
        let key = Bytes::from_vec(Vec::from_slice(alloc, key)?);
        self.touches.insert(at, (key, mark))?;
        Ok(None)
    }

    /// Gives a touched key the mark that stood there before, or takes it out where it was not touched. Takes no memory,
    /// and does nothing where the key is not touched.
    pub(crate) fn restore(&mut self, key: &[u8], before: Option<Option<Bytes>>)
        requires { T (is_sorted bytes_cmp self.old) }
        ensures { self.new ≡ restored key.now before self.old }
    {
        let at = place_of(self.touches.as_slice(), key, false);
        if !stands_at(self.touches.as_slice(), at, key) {
            return;
        }
        match before {
            None => {
                self.touches.remove(at);
            }
            Some(mark) => self.touches[at].1 = mark,
        }
    }

    /// Whether the piece has no touch.
    pub(crate) fn is_empty(&self) -> bool
        ensures { result ≡ (length self.now == 0) }
    {
        self.touches.is_empty()
    }

    /// Cuts the piece in two: keeps the first half, and hands out the other. A refusal leaves the piece as it was.
    pub(crate) fn cut(&mut self) -> Result<Self, Memory>
        ensures front { self.new
            ≡ (if is_ok result then take (length self.old / 2) self.old else self.old) }
        ensures back { IfOk result (λ back. back ≡ drop (length self.old / 2) self.old) }
    {
        let half = self.touches.len() / 2;
        let touches = self.touches.split_off(half)?;
        Ok(Piece { touches })
    }
}
