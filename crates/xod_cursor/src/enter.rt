//! Branches as a cursor comes to them.
ghost use Rattle.std.specs.Prelude.{◌≡◌, ◌<◌, ◌++◌, ◌∷◌, length, List, ℕ, Option, IsTrue, IfOk, IfSome};
ghost use Rattle.xod_base.specs.declared.causes.Place.{Place};
ghost use Rattle.xod_base.specs.declared.causes.ReadError.TheVariants.{Damaged};
ghost use Rattle.xod_base.specs.Views.{CountsFaults};
ghost use Rattle.xod_block.specs.declared.address.Address.{Address};
ghost use Rattle.xod_block.specs.Addresses.{number_of};
ghost use Rattle.xod_block.specs.Fetches.{Stays};
ghost use Rattle.xod_block.specs.Maps.{RecordsAt, Pairs, under};
ghost use Rattle.xod_block.specs.Reading.{links_in, record_in};
ghost use Rattle.xod_trie.specs.Damage.{IsDamaged, IsReached};
ghost use Rattle.xod_cursor.specs.Cursors.{IsEntered, IsFrom, IsLower, IsNext, IsRung, StandsAt, StandsEntered, StandsLeft, behind_pair, children_entries, entered_entries, left_entries};
ghost use Rattle.xod_cursor.specs.Wants.{HasChildren, entries_under, onward_children};

use crate::down::{read_child, with_byte};
use crate::rung::Rung;
use crate::walks::before;
use crate::wanted::Onward;
use std::alloc::Global;
use xod_base::{Bytes, Memory, Pair, ReadError};
use xod_block::{Address, Fetch, link_at, link_count};
use xod_trie::{branch_in, copied, place_of};

/// A whole branch.
#[derive(Drop)]
pub enum Entered {
    /// It has a value: its own pair, and its children, if it has some.
    Own(Pair, Option<Rung>),
    /// It has children alone.
    Below(Rung),
}

/// A branch from a place among its links on.
fn rung_from(
    alloc: Global,
    at: Address,
    front: Bytes,
    links: &[u8],
    place: usize,
) -> Result<Rung, Memory>
    requires { place < length (links_in links.now) }
    ensures { IfOk result (IsRung at front links.now place) }
{
    let links = copied(alloc, links)?;
    Ok(Rung {
        at,
        front,
        links,
        place,
    })
}

/// A branch that has a value. All its keys begin with `front`, and the value is that of `front`.
fn own(
    alloc: Global,
    at: Address,
    front: Bytes,
    value: &[u8],
    links: &[u8],
) -> Result<Entered, Memory>
    ensures entries { (records : RecordsAt) → IfOk result (λ whole.
        entered_entries records whole ≡ behind_pair (record { key = front; value = value.now })
        (children_entries records at front (links_in links.now))) }
    ensures from { IfOk result (IsFrom at) }
    ensures stands { (records : RecordsAt) (root : Option Address) → IsReached records root at
        → HasChildren (records (number_of at)) (links_in links.now)
        → IfOk result (StandsEntered records root) }
{
    let value = copied(alloc, value)?;
    if link_count(links) == 0 {
        return Ok(Entered::Own(Pair { key: front, value }, None));
    }
    let key = front.try_clone(alloc)?;
    let rung = rung_from(alloc, at, front, links, 0)?;
    Ok(Entered::Own(Pair { key, value }, Some(rung)))
}

/// The whole branch that the bytes of an address begin with, and `None` exactly where they begin with none. Its keys
/// stand behind a front.
pub fn entered_at(
    alloc: Global,
    at: Address,
    front: Bytes,
    bytes: &[u8],
) -> Result<Option<Entered>, Memory>
    ensures entries { (records : RecordsAt) → record_in bytes.now ≡ records (number_of at)
        → IfOk result (IsEntered records front at) }
    ensures from { IfOk result (λ found. IfSome found (IsFrom at)) }
    ensures stands { (records : RecordsAt) (root : Option Address)
        → record_in bytes.now ≡ records (number_of at) → IsReached records root at
        → IfOk result (λ found. IfSome found (StandsEntered records root)) }
{
    let Some(branch) = branch_in(bytes) else {
        return Ok(None);
    };
    let mut front = front;
    front.extend(branch.key)?;
    match branch.value {
        Some(value) => {
            let whole = own(alloc, at, front, value, branch.links)?;
            Ok(Some(whole))
        }
        None => {
            let rung = rung_from(alloc, at, front, branch.links, 0)?;
            Ok(Some(Entered::Below(rung)))
        }
    }
}

/// What is left of a branch behind a key: its children from a place on, if there are some.
pub fn onward_at(
    alloc: Global,
    at: Address,
    key: &[u8],
    onward: Onward<'_, '_>,
) -> Result<Option<Rung>, Memory>
    ensures entries { (records : RecordsAt) (front : List ℕ) (others : Pairs)
        → key.now ≡ front ++ onward.entry.behind.now
        → entries_under records (number_of at) (onward_children onward.entry) ≡ Some others
        → IfOk result (λ left. left_entries records left ≡ Some (under front others)) }
    ensures stands { (records : RecordsAt) (root : Option Address) → IsReached records root at
        → HasChildren (records (number_of at)) (links_in onward.entry.links.now)
        → IfOk result (StandsLeft records root) }
{
    let Onward {
        links,
        place,
        behind,
        ..
    } = onward;
    if place >= link_count(links) {
        return Ok(None);
    }
    let front = copied(alloc, before(key, behind))?;
    let rung = rung_from(alloc, at, front, links, place)?;
    Ok(Some(rung))
}

/// The whole branch of the next child of a branch.
pub fn enter_next<F: Fetch>(fetch: &mut F, alloc: Global, rung: &Rung) -> Result<Entered, ReadError>
    ensures next { IsTrue (F.tells fetch.old) → IfOk result
        (IsNext (F.records fetch.old) rung.now) }
    ensures lower { IfOk result (IsLower rung.now.at) }
    ensures counts { CountsFaults (F.faults fetch.old) (F.faults fetch.new) result }
    ensures stands { IsTrue (F.tells fetch.old) → (root : Option Address)
        → StandsAt (F.records fetch.old) root rung.now
        → IfOk result (StandsEntered (F.records fetch.old) root) }
    ensures damaged_only_where_bytes_are { IsTrue (F.tells fetch.old) → (root : Option Address)
        → StandsAt (F.records fetch.old) root rung.now → (place : Place)
        → result ≡ Err (Damaged place) → IsDamaged (F.records fetch.old) root place }
    ensures stays { Stays F.tells F.records F.refs F.faults fetch.old fetch.new }
{
    let (byte, child) = link_at(rung.links.as_slice(), rung.place);
    let front = with_byte(alloc, rung.front.as_slice(), byte)?;
    let bytes = read_child(fetch, alloc, rung.at, child, Bytes::new(alloc))?;
    match entered_at(alloc, child, front, bytes.as_slice())? {
        None => Err(ReadError::Damaged(place_of(child))),
        Some(whole) => Ok(whole),
    }
}
