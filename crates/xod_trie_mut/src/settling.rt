//! Putting a branch away, as a trie may have it.
ghost use Rattle.std.specs.Prelude.{◌≡◌, ◌++◌, ◌∷◌, [], length, Option, IsTrue, IfOk, IfErr, OnErr};
ghost use Rattle.xod_block.specs.declared.address.Address.{Address};
ghost use Rattle.xod_block.specs.Fetches.{Stays};
ghost use Rattle.xod_trie.specs.Branches.{value_by};
ghost use Rattle.xod_trie.specs.Tries.{value_at};
ghost use Rattle.xod_trie_mut.specs.Fingers.{AreLower, Extends, HaveMaps, ValuesFit};
ghost use Rattle.xod_trie_mut.specs.Links.{IsBare};
ghost use Rattle.xod_trie_mut.specs.Own.{AreOwn, HasParts, own_address, with_own};
ghost use Rattle.xod_trie_mut.specs.Settling.{IsMerged, IsSettled};
ghost use Rattle.xod_trie_mut.specs.Stops.{CountsStops, StopsBy};

use crate::loading::load;
use crate::own_branch::OwnBranch;
use crate::seat::Seat;
use crate::stop::Stop;
use std::alloc::Global;
use xod_base::{Listed, Memory, ReadError};
use xod_block::Fetch;

/// Puts a branch behind those that are there, and answers where it stands.
pub fn store(own: &mut Listed<OwnBranch>, branch: OwnBranch) -> Result<Seat, Memory>
    ensures at { IfOk result (λ at. at ≡ own_address (length own.old)) }
    ensures put { IfOk result (λ at. own.new ≡ own.old ++ branch ∷ []) }
    ensures err { OnErr result (own.new ≡ own.old) }
    ensures parts { HasParts branch }
{
    let count = branch.children().len();
    let at = own.len() as u64;
    own.push(branch)?;
    Ok(Seat::own(at))
}

/// A branch that is joined with its child where it has no value and one child.
fn merged<F: Fetch>(
    fetch: &mut F,
    alloc: Global,
    own: &Listed<OwnBranch>,
    branch: OwnBranch,
) -> Result<OwnBranch, Stop>
    ensures merges { (base : Option Address) → AreOwn base own.now
        → AreLower base (length own.now) branch.children → (IsBare branch → ⊥) → IfOk result
        (IsMerged (F.tells fetch.old) (F.records fetch.old) base own.now branch) }
    ensures stops { (base : Option Address) → AreOwn base own.now
        → AreLower base (length own.now) branch.children → IfErr result
        (StopsBy (F.tells fetch.old) (F.records fetch.old)
        (HaveMaps (with_own own.now (F.records fetch.old)) branch.children)
        (ValuesFit (value_by (value_at (with_own own.now (F.records fetch.old))) branch))) }
    ensures counts { CountsStops (F.faults fetch.old) (F.faults fetch.new) result }
    ensures stays { Stays F.tells F.records F.refs F.faults fetch.old fetch.new }
{
    let Some(link) = branch.only_child() else {
        return Ok(branch);
    };
    let child = match load(fetch, alloc, own, link.1) {
        Ok(child) => child,
        Err(stop) => return Err(stop),
    };
    match branch.joined(link.0, child) {
        Ok(Some(both)) => Ok(both),
        Ok(None) => Err(Stop::TooLong),
        Err(_) => Err(Stop::Read(ReadError::Memory)),
    }
}

/// Puts a branch away: joined with its child where it has no value and one child; nothing where it has neither.
pub fn settle<F: Fetch>(
    fetch: &mut F,
    alloc: Global,
    own: &mut Listed<OwnBranch>,
    branch: OwnBranch,
) -> Result<Option<Seat>, Stop>
    ensures settles { (base : Option Address) → AreOwn base own.old
        → AreLower base (length own.old) branch.children → IfOk result
        (IsSettled (F.tells fetch.old) (F.records fetch.old) base own.old own.new branch) }
    ensures stops { (base : Option Address) → AreOwn base own.old
        → AreLower base (length own.old) branch.children → IfErr result
        (StopsBy (F.tells fetch.old) (F.records fetch.old)
        (HaveMaps (with_own own.old (F.records fetch.old)) branch.children)
        (ValuesFit (value_by (value_at (with_own own.old (F.records fetch.old))) branch))) }
    ensures extends { Extends own.old own.new }
    ensures counts { CountsStops (F.faults fetch.old) (F.faults fetch.new) result }
    ensures stays { Stays F.tells F.records F.refs F.faults fetch.old fetch.new }
{
    if branch.is_bare() {
        return Ok(None);
    }
    let made = match merged(fetch, alloc, own, branch) {
        Ok(made) => made,
        Err(stop) => return Err(stop),
    };
    match store(own, made) {
        Ok(at) => Ok(Some(at)),
        Err(_) => Err(Stop::Read(ReadError::Memory)),
    }
}
