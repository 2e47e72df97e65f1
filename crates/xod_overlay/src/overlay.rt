//! The touched keys of all trees.
ghost use Rattle.std.specs.Prelude.{◌≡◌, ◌↔◌, ◌<◌, ℕ, List, Some, None, length, slice_get, IsTrue, IfOk, OnOk, is_ok, if◌then◌else◌};
ghost use Rattle.std.specs.FinMap.{empty, entries, get as mark_of};
ghost use Rattle.std.specs.Option.{option_copied, option_map, unwrap_or};
ghost use Rattle.xod_overlay.specs.Marks.{above_any, least_touch, touch_of, touched, touching};
ghost use Rattle.xod_overlay.specs.Pieces.{rest_of};
ghost use Rattle.xod_overlay.specs.Places.{from, passes};
ghost use Rattle.xod_overlay.specs.Restoring.{restoring};

use crate::rest::Rest;
use crate::sorted::TouchedKeys;
use std::alloc::Global;
use std::marker::Model;
use xod_base::{Bytes, Memory};

/// Touched keys by the number of their tree, each with a value or a removal mark. A key that is set back stays touched.
#[derive(Debug, Drop)]
pub struct Overlay {
    trees: Vec<TouchedKeys>,
}

impl Model for Overlay {
    ghost use Rattle.std.specs.Prelude.{ℕ, List};
    ghost use Rattle.std.specs.Coded.{coded_list, coded_option, coded_ℕ};
    ghost use Rattle.std.specs.FinMap.{code};
    ghost use Rattle.xod_overlay.specs.Marks.{TouchMap};

    ghost Value = { List TouchMap };

    ghost coded = { coded_list (code (coded_list coded_ℕ) (coded_option (coded_list coded_ℕ))) };

    ghost view = { λ overlay. overlay.trees.items };
}

/// A touched key. Without a value the key is removed.
#[derive(Clone, Copy, Debug)]
pub struct Touched<'a> {
    pub key: &'a [u8],
    pub value: Option<&'a [u8]>,
}

/// The bytes of a value, where there is one.
fn bytes_of(mark: &Option<Bytes>) -> Option<&[u8]>
    ensures { option_copied result ≡ mark.now }
{
    match mark {
        None => None,
        Some(value) => Some(value.as_slice()),
    }
}

/// The first of some touches.
fn first_of(touches: Rest<'_>) -> Option<Touched<'_>>
    ensures { option_map touch_of result ≡ slice_get (rest_of touches.entry) 0 }
{
    let (touch, _) = touches.step()?;
    Some(Touched {
        key: touch.0.as_slice(),
        value: bytes_of(&touch.1),
    })
}

/// Room for the touched keys of a tree. Touched keys stay as they are.
fn make_room(trees: &mut Vec<TouchedKeys>, alloc: Global, tree: u8) -> Result<(), Memory>
    ensures same { touched trees.new.items ≡ touched trees.old.items }
    ensures room { OnOk result (tree < length trees.new.items) }
{
    'room: while trees.len() <= tree as usize {
        trees.push(TouchedKeys::new(alloc))?;
    }
    Ok(())
}

/// The touched keys of a tree. Where there are none, that no key of it is touched.
fn keys_of(trees: &[TouchedKeys], tree: u8) -> Option<&TouchedKeys>
    ensures { unwrap_or (option_copied result) empty ≡ touched trees.now tree }
{
    trees.get(tree as usize)
}

/// Whether no key of these trees is touched.
fn are_untouched(trees: &[TouchedKeys]) -> bool
    ensures { IsTrue result ↔ ((tree : ℕ) → touched trees.now tree ≡ empty) }
{
    for keys in trees {
        if !keys.is_empty() {
            return false;
        }
    }
    true
}

/// What stands at a touched key of a tree.
fn mark_in<'a>(keys: &'a TouchedKeys, key: &[u8]) -> Option<Option<&'a [u8]>>
    ensures { option_map (option_copied {T = List ℕ}) result ≡ mark_of keys.now key.now }
{
    let mark = keys.get(key)?;
    Some(bytes_of(mark))
}

impl Overlay {
    /// The overlay without touched keys, which takes no memory.
    pub fn new(alloc: Global) -> Self
        ensures { (tree : ℕ) → touched result tree ≡ empty }
    {
        Overlay {
            trees: Vec::new(alloc),
        }
    }

    /// Whether no key of any tree is touched.
    pub fn is_empty(&self) -> bool
        ensures { IsTrue result ↔ ((tree : ℕ) → touched self.now tree ≡ empty) }
    {
        are_untouched(self.trees.as_slice())
    }

    /// Touches a key with a value, or with a removal mark, and hands out what stood there, `None` where it was not
    /// touched. A refusal leaves the overlay as it was.
    pub(crate) fn exchange(
        &mut self,
        alloc: Global,
        tree: u8,
        key: &[u8],
        mark: Option<Bytes>,
    ) -> Result<Option<Option<Bytes>>, Memory>
        ensures touches { touched self.new ≡ (if is_ok result then touching (touched self.old) tree key.now mark else touched self.old) }
        ensures before { IfOk result (λ before. before ≡ mark_of (touched self.old tree) key.now) }
    {
        make_room(&mut self.trees, alloc, tree)?;
        self.trees[tree as usize].exchange(alloc, key, mark)
    }

    /// Gives a touched key the mark that stood there before, or takes it out where it was not touched. Takes no memory.
    pub(crate) fn restore(&mut self, tree: u8, key: &[u8], before: Option<Option<Bytes>>)
        ensures { touched self.new ≡ restoring (touched self.old) tree key.now before }
    {
        if self.trees.len() <= tree as usize {
            return;
        }
        self.trees[tree as usize].restore(key, before);
    }

    /// Puts a value at a key of a tree. A refusal leaves the overlay as it was.
    pub fn put(&mut self, alloc: Global, tree: u8, key: &[u8], value: &[u8]) -> Result<(), Memory>
        ensures { touched self.new ≡ (if is_ok result then touching (touched self.old) tree key.now (Some value.now) else touched self.old) }
    {
        let value = Bytes::from_vec(Vec::from_slice(alloc, value)?);
        self.exchange(alloc, tree, key, Some(value))?;
        Ok(())
    }

    /// Removes a key of a tree, whether or not it is there. A refusal leaves the overlay as it was.
    pub fn remove(&mut self, alloc: Global, tree: u8, key: &[u8]) -> Result<(), Memory>
        ensures { touched self.new ≡ (if is_ok result then touching (touched self.old) tree key.now None else touched self.old) }
    {
        self.exchange(alloc, tree, key, None)?;
        Ok(())
    }

    /// What stands at a touched key: a value, or none where it is removed. `None` exactly where it is not touched.
    pub fn get(&self, tree: u8, key: &[u8]) -> Option<Option<&[u8]>>
        ensures { option_map (option_copied {T = List ℕ}) result ≡ mark_of (touched self.now tree) key.now }
    {
        match keys_of(self.trees.as_slice(), tree) {
            None => None,
            Some(keys) => mark_in(keys, key),
        }
    }

    /// The least touched key of a tree, above a key where one is given. `None` exactly where there is none.
    pub fn next_touched(&self, tree: u8, after: Option<&[u8]>) -> Option<Touched<'_>>
        ensures { option_map touch_of result ≡ least_touch (above_any (option_copied after.entry)) (touched self.now tree) }
    {
        match after {
            None => first_of(self.touches(tree)),
            Some(key) => first_of(self.touches_from(tree, key, true)),
        }
    }

    /// The touches of a tree from a key on, or above it, by rising key.
    pub(crate) fn touches_from(&self, tree: u8, key: &[u8], strict: bool) -> Rest<'_>
        ensures { rest_of result ≡ from (passes strict key.now) (entries (touched self.now tree)) }
    {
        match keys_of(self.trees.as_slice(), tree) {
            None => Rest::none(),
            Some(keys) => keys.touches_from(key, strict),
        }
    }

    /// All touches of a tree, by rising key.
    fn touches(&self, tree: u8) -> Rest<'_>
        ensures { rest_of result ≡ entries (touched self.now tree) }
    {
        match keys_of(self.trees.as_slice(), tree) {
            None => Rest::none(),
            Some(keys) => keys.touches(),
        }
    }
}
