//! A cursor goes over the keys of a trie in their order, and reads each record once.
//!
//! It keeps the way from the root to where it stands. A step that fails keeps all that is to come, so that the next
//! one goes on there.
ghost use Rattle.std.specs.Prelude.{◌≡◌, ◌++◌, ℕ, List, Option, Some, IsTrue, IfOk, IfSome, OnOk, if◌then◌else◌};
ghost use Rattle.std.specs.FinMap.{entries};
ghost use Rattle.xod_base.specs.declared.causes.Place.{Place};
ghost use Rattle.xod_base.specs.declared.causes.ReadError.TheVariants.{Damaged};
ghost use Rattle.xod_base.specs.Views.{CountsFaults, above, not_below, those_that};
ghost use Rattle.xod_block.specs.declared.address.Address.{Address};
ghost use Rattle.xod_block.specs.Addresses.{number_of};
ghost use Rattle.xod_block.specs.Fetches.{Stays};
ghost use Rattle.xod_block.specs.Maps.{RecordsAt, Pairs, joined, map_at, under};
ghost use Rattle.xod_block.specs.Reading.{links_in};
ghost use Rattle.xod_trie.specs.Damage.{IsDamaged, IsReached};
ghost use Rattle.xod_trie.specs.Least.{passes};
ghost use Rattle.xod_trie.specs.Tries.{trie_map};
ghost use Rattle.xod_cursor.specs.Cursors.{Stands, StandsEntered, StandsOn, Steps, coming, entered_entries, path_entries};
ghost use Rattle.xod_cursor.specs.Entries.{kept};
ghost use Rattle.xod_cursor.specs.Wants.{HasChildren, entries_under, onward_children};

use crate::down::read_child;
use crate::enter::{Entered, enter_next, entered_at, onward_at};
use crate::path::{move_down, put};
use crate::rung::Rung;
use crate::walks::before;
use crate::wanted::{Onward, Wanted, wanted_at};
use std::alloc::Global;
use xod_base::{Bytes, Memory, Pair, ReadError};
use xod_block::{Address, Fetch};
use xod_trie::{copied, place_of, read_record};

/// A place among the keys of a trie, or behind them.
#[derive(Drop)]
pub struct Cursor {
    /// The pair of a whole branch at the end of the path, if it was not given yet.
    first: Option<Pair>,
    /// The branches between the root and here of which children are left, the root's first.
    path: Vec<Rung>,
}

/// A cursor before a whole branch, and then what is left of a path.
fn cursor_at(path: Vec<Rung>, whole: Entered) -> Result<Cursor, Memory>
    ensures coming { (records : RecordsAt) → IfOk result (λ cursor. coming records cursor
        ≡ joined (entered_entries records whole) (path_entries records path.items)) }
    ensures stands { (records : RecordsAt) (root : Option Address)
        → StandsEntered records root whole → StandsOn records root path.items
        → IfOk result (Stands records root) }
{
    let mut path = path;
    match whole {
        Entered::Own(pair, left) => {
            put(&mut path, left)?;
            let first = Some(pair);
            Ok(Cursor { first, path })
        }
        Entered::Below(rung) => {
            put(&mut path, Some(rung))?;
            Ok(Cursor { first: None, path })
        }
    }
}

/// Puts what is left of a branch behind a key at the end of a path.
fn put_onward(
    path: &mut Vec<Rung>,
    alloc: Global,
    at: Address,
    key: &[u8],
    onward: Onward<'_, '_>,
) -> Result<(), Memory>
    ensures entries { (records : RecordsAt) (front : List ℕ) (others later : Pairs)
        → key.now ≡ front ++ onward.entry.behind.now
        → entries_under records (number_of at) (onward_children onward.entry) ≡ Some others
        → path_entries records path.old.items ≡ Some later
        → OnOk result (path_entries records path.new.items ≡ Some (under front others ++ later)) }
    ensures stands { (records : RecordsAt) (root : Option Address) → IsReached records root at
        → HasChildren (records (number_of at)) (links_in onward.entry.links.now)
        → StandsOn records root path.old.items
        → OnOk result (StandsOn records root path.new.items) }
{
    let left = onward_at(alloc, at, key, onward)?;
    put(path, left)?;
    Ok(())
}

/// A cursor before the first key under an address that passes.
fn cursor_under<F: Fetch>(
    fetch: &mut F,
    alloc: Global,
    root: Address,
    key: &[u8],
    strict: bool,
) -> Result<Cursor, ReadError>
    ensures coming { IsTrue (F.tells fetch.old) → (pairs : Pairs)
        → map_at (F.records fetch.old) (number_of root) ≡ Some pairs → IfOk result (λ cursor.
        coming (F.records fetch.old) cursor ≡ Some (kept (passes strict key.now) pairs)) }
    ensures stands { IsTrue (F.tells fetch.old) → IfOk result
        (Stands (F.records fetch.old) (Some root)) }
    ensures counts { CountsFaults (F.faults fetch.old) (F.faults fetch.new) result }
    ensures damaged_only_where_bytes_are { IsTrue (F.tells fetch.old) → (place : Place)
        → result ≡ Err (Damaged place) → IsDamaged (F.records fetch.old) (Some root) place }
    ensures stays { Stays F.tells F.records F.refs F.faults fetch.old fetch.new }
{
    let mut bytes = read_record(alloc, fetch, root, Bytes::new(alloc))?;
    let mut path = Vec::new(alloc);
    let mut at = root;
    let mut rest = key;
    'down: loop {
        match wanted_at(bytes.as_slice(), rest, strict) {
            Wanted::Damaged => return Err(ReadError::Damaged(place_of(at))),
            Wanted::All => {
                let front = copied(alloc, before(key, rest))?;
                let Some(whole) = entered_at(alloc, at, front, bytes.as_slice())? else {
                    return Err(ReadError::Damaged(place_of(at)));
                };
                let cursor = cursor_at(path, whole)?;
                return Ok(cursor);
            }
            Wanted::Nothing => return Ok(Cursor { first: None, path }),
            Wanted::From(onward) => {
                put_onward(&mut path, alloc, at, key, onward)?;
                return Ok(Cursor { first: None, path });
            }
            Wanted::Into((_, child), left, onward) => {
                put_onward(&mut path, alloc, at, key, onward)?;
                bytes = read_child(fetch, alloc, at, child, bytes)?;
                at = child;
                rest = left;
            }
        }
    }
}

impl Cursor {
    /// A cursor before the first key of a trie. Without a root there is no key.
    pub fn start<F: Fetch>(
        fetch: &mut F,
        alloc: Global,
        root: Option<Address>,
    ) -> Result<Cursor, ReadError>
        ensures coming { IsTrue (F.tells fetch.old)
            → IfSome (trie_map (F.records fetch.old) root) (λ map. IfOk result (λ cursor.
            coming (F.records fetch.old) cursor ≡ Some (entries map))) }
        ensures stands { IsTrue (F.tells fetch.old) → IfOk result
            (Stands (F.records fetch.old) root) }
        ensures counts { CountsFaults (F.faults fetch.old) (F.faults fetch.new) result }
        ensures damaged_only_where_bytes_are { IsTrue (F.tells fetch.old) → (place : Place)
            → result ≡ Err (Damaged place) → IsDamaged (F.records fetch.old) root place }
        ensures stays { Stays F.tells F.records F.refs F.faults fetch.old fetch.new }
    {
        Cursor::start_from(fetch, alloc, root, &[], false)
    }

    /// A cursor before the first key of a trie that is not below a key or, where it is strict, that is above it.
    pub fn start_from<F: Fetch>(
        fetch: &mut F,
        alloc: Global,
        root: Option<Address>,
        key: &[u8],
        strict: bool,
    ) -> Result<Cursor, ReadError>
        ensures coming { IsTrue (F.tells fetch.old)
            → IfSome (trie_map (F.records fetch.old) root) (λ map. IfOk result (λ cursor.
            coming (F.records fetch.old) cursor
            ≡ Some (those_that (if strict then above key.now else not_below key.now) map))) }
        ensures stands { IsTrue (F.tells fetch.old) → IfOk result
            (Stands (F.records fetch.old) root) }
        ensures counts { CountsFaults (F.faults fetch.old) (F.faults fetch.new) result }
        ensures damaged_only_where_bytes_are { IsTrue (F.tells fetch.old) → (place : Place)
            → result ≡ Err (Damaged place) → IsDamaged (F.records fetch.old) root place }
        ensures stays { Stays F.tells F.records F.refs F.faults fetch.old fetch.new }
    {
        match root {
            None => Ok(Cursor {
                first: None,
                path: Vec::new(alloc),
            }),
            Some(root) => cursor_under(fetch, alloc, root, key, strict),
        }
    }

    /// The next pair, and `None` exactly where there is none. It goes on over the records of the trie under the root of
    /// the start, as long as they stand. An error loses no pair: the next step tries again.
    pub fn step<F: Fetch>(
        &mut self,
        fetch: &mut F,
        alloc: Global,
    ) -> Result<Option<Pair>, ReadError>
        ensures steps { IsTrue (F.tells fetch.old) → Steps (coming (F.records fetch.old) self.old)
            (coming (F.records fetch.old) self.new) result }
        ensures stands { IsTrue (F.tells fetch.old) → (root : Option Address)
            → Stands (F.records fetch.old) root self.old
            → Stands (F.records fetch.old) root self.new }
        ensures counts { CountsFaults (F.faults fetch.old) (F.faults fetch.new) result }
        ensures damaged_only_where_bytes_are { IsTrue (F.tells fetch.old)
            → (root : Option Address) → Stands (F.records fetch.old) root self.old
            → (place : Place) → result ≡ Err (Damaged place)
            → IsDamaged (F.records fetch.old) root place }
        ensures stays { Stays F.tells F.records F.refs F.faults fetch.old fetch.new }
    {
        if let Some(pair) = self.first.take() {
            return Ok(Some(pair));
        }
        'down: loop {
            let Some(rung) = self.path.last() else {
                return Ok(None);
            };
            match enter_next(fetch, alloc, rung)? {
                Entered::Own(pair, left) => {
                    move_down(&mut self.path, left)?;
                    return Ok(Some(pair));
                }
                Entered::Below(rung) => move_down(&mut self.path, Some(rung))?,
            }
        }
    }
}
