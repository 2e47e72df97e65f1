//! One step from a branch to a child of it.
ghost use Rattle.std.specs.Prelude.{◌≡◌, ◌<◌, ◌++◌, ◌∷◌, [], Option, IsTrue, IfOk, OnOk};
ghost use Rattle.xod_base.specs.declared.causes.Place.{Place};
ghost use Rattle.xod_base.specs.declared.causes.ReadError.TheVariants.{Damaged};
ghost use Rattle.xod_base.specs.Views.{CountsFaults};
ghost use Rattle.xod_block.specs.declared.address.Address.{Address};
ghost use Rattle.xod_block.specs.Addresses.{number_of};
ghost use Rattle.xod_block.specs.Fetches.{Stays};
ghost use Rattle.xod_block.specs.Reading.{record_in};
ghost use Rattle.xod_trie.specs.Damage.{IsDamaged, IsReached, Names};

use std::alloc::Global;
use xod_base::{Bytes, Memory, ReadError};
use xod_block::{Address, Fetch};
use xod_trie::{copied, place_of, read_record};

/// What the keys under a child begin with: a front, and the child's byte.
pub fn with_byte(alloc: Global, front: &[u8], byte: u8) -> Result<Bytes, Memory>
    ensures { IfOk result (λ longer. longer ≡ front.now ++ byte ∷ []) }
{
    let mut longer = copied(alloc, front)?;
    longer.push(byte)?;
    Ok(longer)
}

/// The bytes of the record at a child, in the room of a list whose bytes are let go.
///
/// A child that is not below its parent is not read, so that no way down goes in a circle.
pub fn read_child<F: Fetch>(
    fetch: &mut F,
    alloc: Global,
    parent: Address,
    child: Address,
    room: Bytes,
) -> Result<Bytes, ReadError>
    ensures record { IsTrue (F.tells fetch.old) → IfOk result (λ bytes.
        record_in bytes ≡ F.records fetch.old (number_of child)) }
    ensures below { OnOk result (number_of child < number_of parent) }
    ensures counts { CountsFaults (F.faults fetch.old) (F.faults fetch.new) result }
    ensures damaged_only_where_bytes_are { IsTrue (F.tells fetch.old) → (root : Option Address)
        → IsReached (F.records fetch.old) root parent
        → Names (F.records fetch.old (number_of parent)) child → (place : Place)
        → result ≡ Err (Damaged place) → IsDamaged (F.records fetch.old) root place }
    ensures stays { Stays F.tells F.records F.refs F.faults fetch.old fetch.new }
{
    if !child.is_below(parent) {
        return Err(ReadError::Damaged(place_of(parent)));
    }
    read_record(alloc, fetch, child, room)
}
