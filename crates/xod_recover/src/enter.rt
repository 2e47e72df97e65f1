//! One step of a walk: from a record to what it names.
ghost use Rattle.std.specs.Prelude.{◌≡◌, ◌<◌, ◌≤◌, ◌+◌, ◌*◌, ◌^◌, ◌==◌, if◌then◌else◌, length, Some, None, IsTrue, IfOk, OnOk, IfSome, OnSome, IfNone};
ghost use Rattle.std.specs.Option.{option_map};
ghost use Rattle.xod_base.specs.declared.causes.Place.{Place};
ghost use Rattle.xod_base.specs.declared.causes.ReadError.TheVariants.{Damaged};
ghost use Rattle.xod_base.specs.Views.{CountsFaults};
ghost use Rattle.xod_block.specs.Addresses.{number_of};
ghost use Rattle.xod_block.specs.Fetches.{Stays, place_of};
ghost use Rattle.xod_block.specs.Reading.{links_in, record_in};
ghost use Rattle.xod_trie.specs.Branches.{branch_of};
ghost use Rattle.xod_log.specs.Ends.{body_of};
ghost use Rattle.xod_recover.specs.Frames.{AreClean, Enters, StandInBodies, lists_body};
ghost use Rattle.xod_recover.specs.Walks.{bad_under};

use std::alloc::Global;
use std::collections::HashSet;
use xod_base::{Bytes, Memory, Place, ReadError};
use xod_block::{Address, Fetch, link_at, link_count};
use xod_trie::{Links, branch_in, place_of, read_record};

/// The number that an address has in the order of addresses.
pub fn number_of(at: Address) -> u128
    ensures number { result ≡ number_of at }
    ensures place { at.at < 2 ^ 64 }
{
    u128::from(at.file) * 18_446_744_073_709_551_616 + u128::from(at.at)
}

/// The links that bytes are.
fn links_of(alloc: Global, bytes: &[u8]) -> Result<Links, Memory>
    ensures { IfOk result (λ list. list ≡ links_in bytes.now) }
{
    let mut list = Links::new(alloc);
    for index in 0..link_count(bytes) {
        list.push(link_at(bytes, index))?;
    }
    Ok(list)
}

/// The children of the leaf or node that bytes begin with. `None` exactly where there is none.
fn children_in(alloc: Global, bytes: &[u8]) -> Result<Option<Links>, Memory>
    ensures exactly { IfOk result (λ found. found
        ≡ option_map (λ branch. branch.children) (branch_of (record_in bytes.now))) }
    ensures few { IfOk result (λ found. IfSome found (λ children. length children ≤ 256)) }
{
    match branch_in(bytes) {
        None => Ok(None),
        Some(branch) => {
            let children = links_of(alloc, branch.links)?;
            Ok(Some(children))
        }
    }
}

/// The children of the leaf or node at an address, and `None` exactly where there is none.
fn children_at<F: Fetch>(
    alloc: Global,
    fetch: &mut F,
    at: Address,
) -> Result<Option<Links>, ReadError>
    ensures exactly { IsTrue (F.tells fetch.old) → IfOk result (λ found. found
        ≡ option_map (λ branch. branch.children) (branch_of (F.records fetch.old (number_of at)))) }
    ensures few { IfOk result (λ found. IfSome found (λ children. length children ≤ 256)) }
    ensures counts { CountsFaults (F.faults fetch.old) (F.faults fetch.new) result }
    ensures damaged_only_without_a_record { IsTrue (F.tells fetch.old) → (place : Place)
        → result ≡ Err (Damaged place) → F.records fetch.old (number_of at) ≡ None }
    ensures stays { Stays F.tells F.records F.refs F.faults fetch.old fetch.new }
{
    let bytes = read_record(alloc, fetch, at, Bytes::new(alloc))?;
    match children_in(alloc, bytes.as_slice()) {
        Ok(found) => Ok(found),
        Err(_) => Err(ReadError::Memory),
    }
}

/// The volume file of a log file's body.
pub fn body_file(file: u32) -> u64
    ensures { result ≡ body_of file }
{
    2 * u64::from(file)
}

/// Whether a log file's body is in a list of volume files.
fn lists_body(numbers: &[u64], file: u32) -> bool
    ensures { result ≡ lists_body numbers.now file }
{
    numbers.contains(&body_file(file))
}

/// The bad place where nothing stands at an address that a record names.
fn blamed(numbers: &[u64], naming: Address, at: Address) -> Place
    ensures { result ≡ (if lists_body numbers.now at.file then place_of at else place_of naming) }
{
    if lists_body(numbers, at.file) {
        place_of(at)
    } else {
        place_of(naming)
    }
}

/// The children of what a record names, and `None` where all below it was walked before. The volume
/// files are listed by number.
pub fn enter<F: Fetch>(
    alloc: Global,
    fetch: &mut F,
    numbers: &[u64],
    walked: &HashSet<u128>,
    naming: Address,
    at: Address,
) -> Result<Option<Links>, ReadError>
    ensures entered { IsTrue (F.tells fetch.old)
        → StandInBodies (F.records fetch.old) (lists_body numbers.now)
        → IfOk result (λ found. IfSome found (λ children.
        Enters (F.records fetch.old) (lists_body numbers.now) naming at children)) }
    ensures walked_before { IsTrue (F.tells fetch.old)
        → StandInBodies (F.records fetch.old) (lists_body numbers.now)
        → AreClean (F.records fetch.old) (lists_body numbers.now) walked.now
        → IfOk result (λ found. IfNone found
        (bad_under (F.records fetch.old) (lists_body numbers.now) naming at ≡ None)) }
    ensures damaged { IsTrue (F.tells fetch.old)
        → StandInBodies (F.records fetch.old) (lists_body numbers.now)
        → (place : Place) → result ≡ Err (Damaged place)
        → bad_under (F.records fetch.old) (lists_body numbers.now) naming at ≡ Some place }
    ensures below { OnOk result (number_of at < number_of naming) }
    ensures few { IfOk result (λ found. IfSome found (λ children. length children ≤ 256)) }
    ensures counts { CountsFaults (F.faults fetch.old) (F.faults fetch.new) result }
    ensures stays { Stays F.tells F.records F.refs F.faults fetch.old fetch.new }
{
    if !at.is_below(naming) {
        return Err(ReadError::Damaged(place_of(naming)));
    }
    if walked.contains(&number_of(at)) {
        return Ok(None);
    }
    match children_at(alloc, fetch, at) {
        Ok(Some(children)) => Ok(Some(children)),
        Ok(None) => Err(ReadError::Damaged(blamed(numbers, naming, at))),
        Err(ReadError::Damaged(_)) => Err(ReadError::Damaged(blamed(numbers, naming, at))),
        Err(error) => Err(error),
    }
}
