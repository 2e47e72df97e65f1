//! The way down to the least key below an address.
ghost use Rattle.std.specs.Prelude.{◌≡◌, ℕ, List, Option, Some, IsTrue, IfOk};
ghost use Rattle.xod_base.specs.declared.causes.Place.{Place};
ghost use Rattle.xod_base.specs.declared.causes.ReadError.TheVariants.{Damaged};
ghost use Rattle.xod_base.specs.Views.{CountsFaults, Entry};
ghost use Rattle.xod_block.specs.declared.address.Address.{Address};
ghost use Rattle.xod_block.specs.Addresses.{number_of};
ghost use Rattle.xod_block.specs.Fetches.{Stays};
ghost use Rattle.xod_block.specs.Maps.{RecordsAt};
ghost use Rattle.xod_block.specs.Reading.{record_in};
ghost use Rattle.xod_trie.specs.Damage.{IsDamaged, IsReached};
ghost use Rattle.xod_cursor.specs.Entries.{first_pair};
ghost use Rattle.xod_cursor.specs.Walks.{BeginsAt, IsLow, IsLowRead};

use crate::down::read_child;
use std::alloc::Global;
use xod_base::{Bytes, Memory, Pair, ReadError};
use xod_block::{Address, Fetch, link_at};
use xod_trie::{branch_in, copied, place_of};

/// Where the way down goes on from a branch.
#[derive(Drop)]
pub enum Low {
    /// The bytes begin with no leaf or node.
    Damaged,
    /// No further: the least key, and its value.
    Ends(Pair),
    /// At the first child, with what the keys there begin with.
    Goes(Bytes, Address),
}

/// One step of the way down, where all keys of the branch have a front before them.
fn low_at(alloc: Global, front: Bytes, bytes: &[u8]) -> Result<Low, Memory>
    ensures least { (records : RecordsAt) (at : ℕ) (entries : List Entry)
        → record_in bytes.now ≡ records at → BeginsAt records front at entries
        → IfOk result (IsLow records entries) }
    ensures read { IfOk result (IsLowRead (record_in bytes.now)) }
{
    let Some(branch) = branch_in(bytes) else {
        return Ok(Low::Damaged);
    };
    let mut key = front;
    key.extend(branch.key)?;
    if let Some(value) = branch.value {
        let value = copied(alloc, value)?;
        return Ok(Low::Ends(Pair { key, value }));
    }
    let (byte, child) = link_at(branch.links, 0);
    key.push(byte)?;
    Ok(Low::Goes(key, child))
}

/// The pair with the least key below an address, whose record was read, behind a front.
pub fn lowest<F: Fetch>(
    fetch: &mut F,
    alloc: Global,
    front: Bytes,
    at: Address,
    bytes: Bytes,
) -> Result<Pair, ReadError>
    ensures least { IsTrue (F.tells fetch.old)
        → record_in bytes ≡ F.records fetch.old (number_of at) → (entries : List Entry)
        → BeginsAt (F.records fetch.old) front (number_of at) entries
        → IfOk result (λ pair. first_pair entries ≡ Some pair) }
    ensures counts { CountsFaults (F.faults fetch.old) (F.faults fetch.new) result }
    ensures damaged_only_where_bytes_are { IsTrue (F.tells fetch.old)
        → record_in bytes ≡ F.records fetch.old (number_of at) → (root : Option Address)
        → IsReached (F.records fetch.old) root at → (place : Place)
        → result ≡ Err (Damaged place) → IsDamaged (F.records fetch.old) root place }
    ensures stays { Stays F.tells F.records F.refs F.faults fetch.old fetch.new }
{
    let mut front = front;
    let mut at = at;
    let mut bytes = bytes;
    'down: loop {
        match low_at(alloc, front, bytes.as_slice())? {
            Low::Damaged => return Err(ReadError::Damaged(place_of(at))),
            Low::Ends(pair) => return Ok(pair),
            Low::Goes(more, child) => {
                bytes = read_child(fetch, alloc, at, child, bytes)?;
                front = more;
                at = child;
            }
        }
    }
}
