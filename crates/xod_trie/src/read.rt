//! Reading the record at an address.
ghost use Rattle.std.specs.Prelude.{◌≡◌, [], IsTrue, IfOk, None};
ghost use Rattle.xod_base.specs.declared.causes.Place.{Place};
ghost use Rattle.xod_base.specs.declared.causes.ReadError.TheVariants.{Damaged};
ghost use Rattle.xod_base.specs.Views.{CountsFaults};
ghost use Rattle.xod_block.specs.Addresses.{number_of};
ghost use Rattle.xod_block.specs.Fetches.{Stays, place_of};
ghost use Rattle.xod_block.specs.Reading.{record_in};
ghost use Rattle.xod_trie.specs.Branches.{FitsBranch, IsBranch, branch_of};

use crate::branch::{Branch, branch_in, copied_branch};
use std::alloc::Global;
use xod_base::{Bytes, Place, ReadError};
use xod_block::{Address, Fetch};

/// An address as a place in a volume file.
pub fn place_of(at: Address) -> Place
    ensures { result ≡ place_of at }
{
    Place {
        file: 2 * u64::from(at.file),
        at: at.at,
    }
}

/// Takes the bytes off a list and keeps its room.
fn emptied(bytes: Bytes) -> Bytes
    ensures { result ≡ [] }
{
    let mut items = bytes.into_vec();
    items.clear();
    Bytes::from_vec(items)
}

/// The bytes of the record at an address, in the room of a list whose bytes are let go.
pub fn read_record<F: Fetch>(
    alloc: Global,
    fetch: &mut F,
    at: Address,
    room: Bytes,
) -> Result<Bytes, ReadError>
    ensures record { IsTrue (F.tells fetch.old) → IfOk result (λ bytes.
        record_in bytes ≡ F.records fetch.old (number_of at)) }
    ensures counts { CountsFaults (F.faults fetch.old) (F.faults fetch.new) result }
    ensures damaged_only_without_a_record { IsTrue (F.tells fetch.old) → (place : Place)
        → result ≡ Err (Damaged place) → F.records fetch.old (number_of at) ≡ None }
    ensures damaged_names_this_place { (place : Place)
        → result ≡ Err (Damaged place) → place ≡ place_of at }
    ensures stays { Stays F.tells F.records F.refs F.faults fetch.old fetch.new }
{
    let mut bytes = emptied(room);
    fetch.fetch(alloc, at, &mut bytes)?;
    Ok(bytes)
}

/// The leaf or node at an address.
pub fn load<F: Fetch>(alloc: Global, fetch: &mut F, at: Address) -> Result<Branch, ReadError>
    ensures branch { IsTrue (F.tells fetch.old) → IfOk result
        (IsBranch (F.records fetch.old (number_of at))) }
    ensures fits { IfOk result FitsBranch }
    ensures counts { CountsFaults (F.faults fetch.old) (F.faults fetch.new) result }
    ensures damaged_only_without_a_branch { IsTrue (F.tells fetch.old) → (place : Place)
        → result ≡ Err (Damaged place) → branch_of (F.records fetch.old (number_of at)) ≡ None }
    ensures damaged_names_this_place { (place : Place)
        → result ≡ Err (Damaged place) → place ≡ place_of at }
    ensures stays { Stays F.tells F.records F.refs F.faults fetch.old fetch.new }
{
    let bytes = read_record(alloc, fetch, at, Bytes::new(alloc))?;
    let Some(branch) = branch_in(bytes.as_slice()) else {
        return Err(ReadError::Damaged(place_of(at)));
    };
    match copied_branch(alloc, branch) {
        Ok(branch) => Ok(branch),
        Err(_) => Err(ReadError::Memory),
    }
}
