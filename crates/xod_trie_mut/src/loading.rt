//! Taking a branch in hand: from a record of the log, or as a copy of one in memory.
ghost use Rattle.std.specs.Prelude.{◌≡◌, ◌<◌, length, false, Option, IsTrue, IsSome, IfOk, IfErr};
ghost use Rattle.std.specs.List.{AllByRecursion};
ghost use Rattle.xod_base.specs.Views.{CountsFaults};
ghost use Rattle.xod_block.specs.declared.address.Address.{Address};
ghost use Rattle.xod_block.specs.Addresses.{number_of};
ghost use Rattle.xod_block.specs.Fetches.{Stays};
ghost use Rattle.xod_block.specs.Maps.{map_at};
ghost use Rattle.xod_block.specs.Reading.{links_in};
ghost use Rattle.xod_trie.specs.Branches.{IsBranch};
ghost use Rattle.xod_trie_mut.specs.Damaged.{HasNotBelow};
ghost use Rattle.xod_trie_mut.specs.Own.{AreOwn, IsLower, with_own};
ghost use Rattle.xod_trie_mut.specs.Settling.{IsLoaded, IsSavedBranch};
ghost use Rattle.xod_trie_mut.specs.Stops.{Breaks, CountsStops, IsRead, StopsBy};

use crate::own_branch::OwnBranch;
use crate::seat::{Seat, Stand};
use crate::stop::Stop;
use std::alloc::Global;
use xod_base::{Bytes, Listed, Place, ReadError};
use xod_block::{Address, Fetch, link_at, link_count};
use xod_trie::{branch_in, place_of, read_record};

/// Whether all links in bytes are below an address.
fn are_below(links: &[u8], at: Address) -> bool
    ensures below { IsTrue result → AllByRecursion (λ child. number_of child.1 < number_of at)
        (links_in links.now) }
    ensures not_below { result ≡ false → HasNotBelow (links_in links.now) at }
{
    for index in 0..link_count(links) {
        let (_, child) = link_at(links, index);
        if !child.is_below(at) {
            return false;
        }
    }
    true
}

/// The leaf or node of a record, whose children are all below it.
fn load_saved<F: Fetch>(fetch: &mut F, alloc: Global, at: Address) -> Result<OwnBranch, ReadError>
    ensures branch { IsTrue (F.tells fetch.old) → IfOk result
        (IsBranch (F.records fetch.old (number_of at))) }
    ensures shape { IfOk result (IsSavedBranch at) }
    ensures breaks { IfErr result (Breaks (F.tells fetch.old) (F.records fetch.old)
        (IsSome (map_at (F.records fetch.old) (number_of at)))) }
    ensures counts { CountsFaults (F.faults fetch.old) (F.faults fetch.new) result }
    ensures stays { Stays F.tells F.records F.refs F.faults fetch.old fetch.new }
{
    let bytes = match read_record(alloc, fetch, at, Bytes::new(alloc)) {
        Ok(bytes) => bytes,
        Err(error) => return Err(error),
    };
    let Some(branch) = branch_in(bytes.as_slice()) else {
        return Err(ReadError::Damaged(place_of(at)));
    };
    if !are_below(branch.links, at) {
        return Err(ReadError::Damaged(place_of(at)));
    }
    match OwnBranch::of(alloc, branch) {
        Ok(own) => Ok(own),
        Err(_) => Err(ReadError::Memory),
    }
}

/// The branch that stands somewhere: that of a record, or a copy of one in memory.
pub fn load<F: Fetch>(
    fetch: &mut F,
    alloc: Global,
    own: &Listed<OwnBranch>,
    at: Seat,
) -> Result<OwnBranch, Stop>
    ensures loads { (base : Option Address) → AreOwn base own.now
        → IsLower base (length own.now) at → IfOk result
        (IsLoaded (F.tells fetch.old) (F.records fetch.old) base own.now at) }
    ensures stops { (base : Option Address) → IsLower base (length own.now) at → IfErr result
        (StopsBy (F.tells fetch.old) (F.records fetch.old)
        (IsSome (map_at (with_own own.now (F.records fetch.old)) (number_of at))) (Unit {0})) }
    ensures only_reads { IfErr result IsRead }
    ensures counts { CountsStops (F.faults fetch.old) (F.faults fetch.new) result }
    ensures stays { Stays F.tells F.records F.refs F.faults fetch.old fetch.new }
{
    match at.stand() {
        Stand::Saved(address) => match load_saved(fetch, alloc, address) {
            Ok(branch) => Ok(branch),
            Err(error) => Err(Stop::Read(error)),
        },
        Stand::Own(index) => {
            if index >= own.len() as u64 {
                return Err(Stop::Read(ReadError::Damaged(Place {
                    file: u64::MAX,
                    at: index,
                })));
            }
            match own.as_slice()[index as usize].try_copy(alloc) {
                Ok(branch) => Ok(branch),
                Err(_) => Err(Stop::Read(ReadError::Memory)),
            }
        }
    }
}
