//! Looking through a whole trie for a place that is damaged.
//!
//! Two branches whose key part would be too long come up only where some key is too long, or where the trie has no map.
//! So where the keys fit, this finds the place for the answer.
ghost use Rattle.std.specs.Prelude.{◌≡◌, ◌≤◌, ◌<◌, ◌++◌, Option, Some, None, true, false, length, map, IsTrue, IsSome, IfOk, IfErr, OnOk, Err};
ghost use Rattle.std.specs.List.{AllByRecursion};
ghost use Rattle.xod_base.specs.declared.causes.ReadError.TheVariants.{Device};
ghost use Rattle.xod_base.specs.Views.{CountsFaults};
ghost use Rattle.xod_block.specs.declared.address.Address.{Address};
ghost use Rattle.xod_block.specs.Addresses.{number_of};
ghost use Rattle.xod_block.specs.Fetches.{Stays};
ghost use Rattle.xod_block.specs.Maps.{map_at};
ghost use Rattle.xod_trie.specs.Tries.{trie_map};
ghost use Rattle.xod_trie_mut.specs.declared.stop.Stop.TheVariants.{Read};
ghost use Rattle.xod_trie_mut.specs.Own.{AreOwn, IsLower, IsRoot, with_own};
ghost use Rattle.xod_trie_mut.specs.Settling.{IsUnder};
ghost use Rattle.xod_trie_mut.specs.Stops.{Breaks, IsRead, IsWanting};

use crate::loading::load;
use crate::own_branch::OwnBranch;
use crate::seat::{Seat, Stand};
use crate::stop::Stop;
use std::alloc::Global;
use xod_base::{Listed, Place, ReadError};
use xod_block::Fetch;

/// A place that no file has, for what no bytes of a log can be to blame for.
const NOWHERE: Place = Place {
    file: u64::MAX,
    at: 0,
};

/// Whether a seat is below another.
fn is_below(seat: Seat, other: Seat) -> bool
    ensures below { IsTrue result → number_of seat < number_of other }
    ensures under { IsUnder other seat → IsTrue result }
{
    match other.stand() {
        Stand::Saved(at) => match seat.stand() {
            Stand::Saved(child) => child.is_below(at),
            Stand::Own(_) => false,
        },
        Stand::Own(at) => match seat.stand() {
            Stand::Saved(_) => true,
            Stand::Own(child) => child < at,
        },
    }
}

/// Puts the children of a branch behind what is still to be looked at.
fn with_children(waiting: Vec<Seat>, branch: &OwnBranch, at: Seat) -> Result<Vec<Seat>, ReadError>
    ensures items { IfOk result (λ list.
        list.items ≡ waiting.items ++ map (λ child. child.1) branch.now.children) }
    ensures below { IfOk result (λ list.
        AllByRecursion (λ child. number_of child.1 < number_of at) branch.now.children) }
    ensures few { length branch.now.children ≤ 256 }
    ensures wanting { AllByRecursion (λ child. IsUnder at child.1) branch.now.children
        → IfErr result IsWanting }
    ensures no_device { IfErr result (λ error. error ≡ Device → ⊥) }
{
    let mut waiting = waiting;
    for link in branch.children() {
        let child = link.1;
        if !is_below(child, at) {
            return Err(ReadError::Damaged(NOWHERE));
        }
        if waiting.push(child).is_err() {
            return Err(ReadError::Memory);
        }
    }
    Ok(waiting)
}

/// The error of a read that stopped.
fn error_of(stop: Stop) -> ReadError
    requires { IsRead stop }
    ensures { stop ≡ Read result }
{
    match stop {
        Stop::Read(error) => error,
        Stop::TooLong => unreachable!(),
    }
}

/// Looks at all that an address leads to.
fn look_through<F: Fetch>(
    fetch: &mut F,
    alloc: Global,
    own: &Listed<OwnBranch>,
    root: Seat,
) -> Result<(), ReadError>
    ensures whole { (base : Option Address) → AreOwn base own.now
        → IsLower base (length own.now) root → IsTrue (F.tells fetch.old) → OnOk result
        (IsSome (map_at (with_own own.now (F.records fetch.old)) (number_of root))) }
    ensures breaks { (base : Option Address) → AreOwn base own.now
        → IsLower base (length own.now) root → IfErr result
        (Breaks (F.tells fetch.old) (F.records fetch.old)
        (IsSome (map_at (with_own own.now (F.records fetch.old)) (number_of root)))) }
    ensures counts { CountsFaults (F.faults fetch.old) (F.faults fetch.new) result }
    ensures stays { Stays F.tells F.records F.refs F.faults fetch.old fetch.new }
{
    let mut waiting = Vec::new(alloc);
    if waiting.push(root).is_err() {
        return Err(ReadError::Memory);
    }
    'through: while let Some(at) = waiting.pop() {
        let branch = match load(fetch, alloc, own, at) {
            Ok(branch) => branch,
            Err(stop) => return Err(error_of(stop)),
        };
        waiting = match with_children(waiting, &branch, at) {
            Ok(more) => more,
            Err(error) => return Err(error),
        };
    }
    Ok(())
}

/// The error where two branches were to become one whose key part is too long.
pub fn too_long<F: Fetch>(
    fetch: &mut F,
    alloc: Global,
    own: &Listed<OwnBranch>,
    root: &Option<Seat>,
) -> ReadError
    ensures breaks { (base : Option Address) → AreOwn base own.now
        → IsRoot base (length own.now) root.now
        → (IsTrue (F.tells fetch.old)
        → IsSome (trie_map (with_own own.now (F.records fetch.old)) root.now) → ⊥)
        → Breaks (F.tells fetch.old) (F.records fetch.old)
        (IsSome (trie_map (with_own own.now (F.records fetch.old)) root.now)) result }
    ensures counts { CountsFaults {A = Unit {0}} (F.faults fetch.old) (F.faults fetch.new)
        (Err result) }
    ensures stays { Stays F.tells F.records F.refs F.faults fetch.old fetch.new }
{
    match root {
        None => ReadError::Damaged(NOWHERE),
        Some(at) => match look_through(fetch, alloc, own, *at) {
            Ok(()) => ReadError::Damaged(NOWHERE),
            Err(error) => error,
        },
    }
}
