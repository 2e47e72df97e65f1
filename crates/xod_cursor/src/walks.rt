//! The least key that is not below a key, or that is above it.
//!
//! One walk goes down as far as the key goes, and keeps the last place beside its way at which all keys are above it.
//! From where the way ends, or from that place, it goes down to the least key. So it reads the records of a path and of
//! a part of it, and copies nothing but the pair that it answers.
ghost use Rattle.std.specs.Prelude.{◌≡◌, ◌++◌, ◌∷◌, [], ℕ, List, Option, Some, None, IsTrue, IfOk, IfSome, true, false};
ghost use Rattle.xod_base.specs.declared.causes.Place.{Place};
ghost use Rattle.xod_base.specs.declared.causes.ReadError.TheVariants.{Damaged};
ghost use Rattle.xod_base.specs.Views.{CountsFaults, Entry, above, least_pair, not_below};
ghost use Rattle.xod_block.specs.declared.address.Address.{Address};
ghost use Rattle.xod_block.specs.Addresses.{number_of};
ghost use Rattle.xod_block.specs.Fetches.{Stays};
ghost use Rattle.xod_block.specs.Maps.{RecordsAt, Pairs, under, map_at};
ghost use Rattle.xod_block.specs.Reading.{links_in, record_in};
ghost use Rattle.xod_trie.specs.Damage.{IsDamaged, IsReached};
ghost use Rattle.xod_trie.specs.Least.{passes};
ghost use Rattle.xod_trie.specs.Tries.{trie_map};
ghost use Rattle.xod_cursor.specs.Entries.{first_pair, kept};
ghost use Rattle.xod_cursor.specs.Walks.{BeginsAt, IsBack, IsBackReached};
ghost use Rattle.xod_cursor.specs.Wants.{HasChildren, entries_under, onward_children};

use crate::down::{read_child, with_byte};
use crate::lowest::lowest;
use crate::wanted::{Onward, Wanted, wanted_at};
use std::alloc::Global;
use xod_base::{Bytes, Pair, ReadError};
use xod_block::{Address, Fetch, link_at, link_count};
use xod_trie::{copied, place_of, read_record};

/// A place to come back to, below which all keys pass: a child of a branch beside the way, with the front of the key
/// before it.
#[derive(Clone, Copy, Debug)]
pub struct Start<'k> {
    pub front: &'k [u8],
    pub byte: u8,
    pub at: Address,
    pub parent: Address,
}

/// A key without what is left of it.
pub fn before<'k>(key: &'k [u8], left: &[u8]) -> &'k [u8]
    ensures { (front : List ℕ) → key.now ≡ front ++ left.now → result.now ≡ front }
{
    if left.len() > key.len() {
        return key;
    }
    let (front, _) = key.split_at(key.len() - left.len());
    front
}

/// The place to come back to behind the way: the first child from a place on or, without one, the place there was.
fn start_at<'k>(
    parent: Address,
    key: &'k [u8],
    onward: Onward<'_, '_>,
    back: Option<Start<'k>>,
) -> Option<Start<'k>>
    ensures back { (records : RecordsAt) (front : List ℕ) (others later : Pairs)
        → key.now ≡ front ++ onward.entry.behind.now
        → entries_under records (number_of parent) (onward_children onward.entry) ≡ Some others
        → IsBack records back.entry later → IsBack records result (under front others ++ later) }
    ensures reached { (records : RecordsAt) (root : Option Address) → IsReached records root parent
        → HasChildren (records (number_of parent)) (links_in onward.entry.links.now)
        → IsBackReached records root back.entry → IsBackReached records root result }
{
    let Onward {
        links,
        place,
        behind,
        ..
    } = onward;
    if place >= link_count(links) {
        return back;
    }
    let (byte, at) = link_at(links, place);
    let front = before(key, behind);
    Some(Start {
        front,
        byte,
        at,
        parent,
    })
}

/// The pair with the least key below a place to come back to. Without one there is none.
fn least_behind<F: Fetch>(
    fetch: &mut F,
    alloc: Global,
    back: Option<Start<'_>>,
    room: Bytes,
) -> Result<Option<Pair>, ReadError>
    ensures least { IsTrue (F.tells fetch.old) → (entries : List Entry)
        → IsBack (F.records fetch.old) back.entry entries
        → IfOk result (λ found. found ≡ first_pair entries) }
    ensures counts { CountsFaults (F.faults fetch.old) (F.faults fetch.new) result }
    ensures damaged_only_where_bytes_are { IsTrue (F.tells fetch.old) → (root : Option Address)
        → IsBackReached (F.records fetch.old) root back.entry → (place : Place)
        → result ≡ Err (Damaged place) → IsDamaged (F.records fetch.old) root place }
    ensures stays { Stays F.tells F.records F.refs F.faults fetch.old fetch.new }
{
    match back {
        None => Ok(None),
        Some(start) => {
            let front = with_byte(alloc, start.front, start.byte)?;
            let bytes = read_child(fetch, alloc, start.parent, start.at, room)?;
            let pair = lowest(fetch, alloc, front, start.at, bytes)?;
            Ok(Some(pair))
        }
    }
}

/// The pair with the least key of a branch, whose record was read, behind a front.
fn least_here<F: Fetch>(
    fetch: &mut F,
    alloc: Global,
    front: &[u8],
    at: Address,
    bytes: Bytes,
) -> Result<Option<Pair>, ReadError>
    ensures least { IsTrue (F.tells fetch.old)
        → record_in bytes ≡ F.records fetch.old (number_of at) → (entries : List Entry)
        → BeginsAt (F.records fetch.old) front.now (number_of at) entries
        → IfOk result (λ found. found ≡ first_pair entries) }
    ensures counts { CountsFaults (F.faults fetch.old) (F.faults fetch.new) result }
    ensures damaged_only_where_bytes_are { IsTrue (F.tells fetch.old)
        → record_in bytes ≡ F.records fetch.old (number_of at) → (root : Option Address)
        → IsReached (F.records fetch.old) root at → (place : Place)
        → result ≡ Err (Damaged place) → IsDamaged (F.records fetch.old) root place }
    ensures stays { Stays F.tells F.records F.refs F.faults fetch.old fetch.new }
{
    let front = copied(alloc, front)?;
    let pair = lowest(fetch, alloc, front, at, bytes)?;
    Ok(Some(pair))
}

/// The pair with the least key under an address that passes.
fn walk_under<F: Fetch>(
    fetch: &mut F,
    alloc: Global,
    root: Address,
    key: &[u8],
    strict: bool,
) -> Result<Option<Pair>, ReadError>
    ensures least { IsTrue (F.tells fetch.old) → (pairs : Pairs)
        → map_at (F.records fetch.old) (number_of root) ≡ Some pairs
        → IfOk result (λ found. found ≡ first_pair (kept (passes strict key.now) pairs)) }
    ensures counts { CountsFaults (F.faults fetch.old) (F.faults fetch.new) result }
    ensures damaged_only_where_bytes_are { IsTrue (F.tells fetch.old) → (place : Place)
        → result ≡ Err (Damaged place) → IsDamaged (F.records fetch.old) (Some root) place }
    ensures stays { Stays F.tells F.records F.refs F.faults fetch.old fetch.new }
{
    let mut bytes = read_record(alloc, fetch, root, Bytes::new(alloc))?;
    let mut at = root;
    let mut rest = key;
    let mut back: Option<Start<'_>> = None;
    'down: loop {
        match wanted_at(bytes.as_slice(), rest, strict) {
            Wanted::Damaged => return Err(ReadError::Damaged(place_of(at))),
            Wanted::All => return least_here(fetch, alloc, before(key, rest), at, bytes),
            Wanted::Nothing => return least_behind(fetch, alloc, back, bytes),
            Wanted::From(onward) => {
                let start = start_at(at, key, onward, back);
                return least_behind(fetch, alloc, start, bytes);
            }
            Wanted::Into((_, child), left, onward) => {
                back = start_at(at, key, onward, back);
                bytes = read_child(fetch, alloc, at, child, bytes)?;
                at = child;
                rest = left;
            }
        }
    }
}

/// The pair with the least key of a trie that passes. Without a root there is none.
fn walk<F: Fetch>(
    fetch: &mut F,
    alloc: Global,
    root: Option<Address>,
    key: &[u8],
    strict: bool,
) -> Result<Option<Pair>, ReadError>
    ensures least { IsTrue (F.tells fetch.old) → IfSome (trie_map (F.records fetch.old) root)
        (λ map. IfOk result (λ found. found ≡ least_pair (passes strict key.now) map)) }
    ensures counts { CountsFaults (F.faults fetch.old) (F.faults fetch.new) result }
    ensures damaged_only_where_bytes_are { IsTrue (F.tells fetch.old) → (place : Place)
        → result ≡ Err (Damaged place) → IsDamaged (F.records fetch.old) root place }
    ensures stays { Stays F.tells F.records F.refs F.faults fetch.old fetch.new }
{
    match root {
        None => Ok(None),
        Some(root) => walk_under(fetch, alloc, root, key, strict),
    }
}

/// The pair of a trie with the least key that is not below a key, and `None` exactly where there is none. Without a root
/// there is none.
pub fn seek<F: Fetch>(
    fetch: &mut F,
    alloc: Global,
    root: Option<Address>,
    key: &[u8],
) -> Result<Option<Pair>, ReadError>
    ensures least { IsTrue (F.tells fetch.old) → IfSome (trie_map (F.records fetch.old) root)
        (λ map. IfOk result (λ found. found ≡ least_pair (not_below key.now) map)) }
    ensures counts { CountsFaults (F.faults fetch.old) (F.faults fetch.new) result }
    ensures damaged_only_where_bytes_are { IsTrue (F.tells fetch.old) → (place : Place)
        → result ≡ Err (Damaged place) → IsDamaged (F.records fetch.old) root place }
    ensures stays { Stays F.tells F.records F.refs F.faults fetch.old fetch.new }
{
    walk(fetch, alloc, root, key, false)
}

/// The pair of a trie with the least key that is above a key, and `None` exactly where there is none. Without a root
/// there is none.
pub fn next<F: Fetch>(
    fetch: &mut F,
    alloc: Global,
    root: Option<Address>,
    key: &[u8],
) -> Result<Option<Pair>, ReadError>
    ensures least { IsTrue (F.tells fetch.old) → IfSome (trie_map (F.records fetch.old) root)
        (λ map. IfOk result (λ found. found ≡ least_pair (above key.now) map)) }
    ensures counts { CountsFaults (F.faults fetch.old) (F.faults fetch.new) result }
    ensures damaged_only_where_bytes_are { IsTrue (F.tells fetch.old) → (place : Place)
        → result ≡ Err (Damaged place) → IsDamaged (F.records fetch.old) root place }
    ensures stays { Stays F.tells F.records F.refs F.faults fetch.old fetch.new }
{
    walk(fetch, alloc, root, key, true)
}
