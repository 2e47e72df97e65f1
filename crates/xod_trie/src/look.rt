//! Look-up.
ghost use Rattle.std.specs.Prelude.{◌≡◌, IsTrue, IsSome, IfOk, IfSome, Some};
ghost use Rattle.std.specs.FinMap.{get};
ghost use Rattle.xod_base.specs.declared.causes.Place.{Place};
ghost use Rattle.xod_base.specs.declared.causes.ReadError.TheVariants.{Damaged};
ghost use Rattle.xod_base.specs.Views.{CountsFaults};
ghost use Rattle.xod_block.specs.Addresses.{number_of};
ghost use Rattle.xod_block.specs.Fetches.{Stays};
ghost use Rattle.xod_block.specs.Maps.{map_at};
ghost use Rattle.xod_trie.specs.Damage.{IsDamaged};
ghost use Rattle.xod_trie.specs.Tries.{trie_map, value_at};

use crate::branch::copied_value;
use crate::read::{place_of, read_record};
use crate::way::{Way, way_at};
use std::alloc::Global;
use xod_base::{Bytes, ReadError};
use xod_block::{Address, Fetch};

/// The value of a key under an address.
fn find_under<F: Fetch>(
    alloc: Global,
    fetch: &mut F,
    root: Address,
    key: &[u8],
) -> Result<Option<Bytes>, ReadError>
    ensures value { IsTrue (F.tells fetch.old)
        → IsSome (map_at (F.records fetch.old) (number_of root)) → IfOk result (λ found.
        found ≡ value_at (F.records fetch.old) (number_of root) key.now) }
    ensures counts { CountsFaults (F.faults fetch.old) (F.faults fetch.new) result }
    ensures damaged_only_where_bytes_are { IsTrue (F.tells fetch.old) → (place : Place)
        → result ≡ Err (Damaged place) → IsDamaged (F.records fetch.old) (Some root) place }
    ensures stays { Stays F.tells F.records F.refs F.faults fetch.old fetch.new }
{
    let mut at = root;
    let mut rest = key;
    let mut bytes = Bytes::new(alloc);
    'down: loop {
        bytes = read_record(alloc, fetch, at, bytes)?;
        match way_at(at, bytes.as_slice(), rest) {
            Way::Damaged => return Err(ReadError::Damaged(place_of(at))),
            Way::Ends(value) => match copied_value(alloc, value) {
                Ok(found) => return Ok(found),
                Err(_) => return Err(ReadError::Memory),
            },
            Way::Goes(child, left) => {
                at = child;
                rest = left;
            }
        }
    }
}

/// The value of a key in a trie, and `None` exactly where it has none. Without a root there is none.
///
/// It reads each record on the key's way once, and copies the value alone.
pub fn find<F: Fetch>(
    alloc: Global,
    fetch: &mut F,
    root: Option<Address>,
    key: &[u8],
) -> Result<Option<Bytes>, ReadError>
    ensures value { IsTrue (F.tells fetch.old) → IfSome (trie_map (F.records fetch.old) root)
        (λ map. IfOk result (λ found. found ≡ get map key.now)) }
    ensures counts { CountsFaults (F.faults fetch.old) (F.faults fetch.new) result }
    ensures damaged_only_where_bytes_are { IsTrue (F.tells fetch.old) → (place : Place)
        → result ≡ Err (Damaged place) → IsDamaged (F.records fetch.old) root place }
    ensures stays { Stays F.tells F.records F.refs F.faults fetch.old fetch.new }
{
    match root {
        None => Ok(None),
        Some(root) => find_under(alloc, fetch, root, key),
    }
}
