//! The way from key to key: up along the levels, and down to where a key goes no further.
ghost use Rattle.std.specs.Prelude.{◌≡◌, ◌≤◌, ◌<◌, ◌^◌, ℕ, List, Option, Some, false, length, drop, IsTrue, IsSome, IfSome, IfNone, IfOk, IfErr};
ghost use Rattle.xod_block.specs.declared.address.Address.{Address};
ghost use Rattle.xod_block.specs.Fetches.{Stays};
ghost use Rattle.xod_trie.specs.Branches.{value_by};
ghost use Rattle.xod_trie.specs.Tries.{TrieMap, value_at};
ghost use Rattle.xod_trie_mut.specs.Changes.{KeysFit};
ghost use Rattle.xod_trie_mut.specs.Fingers.{AreLower, Extends, GoesAt, HaveMaps, IsInHand, IsHeld, IsLeft, IsOnWay, IsUntouched, StaysAt, ValuesFit};
ghost use Rattle.xod_trie_mut.specs.Own.{AreOwn, with_own};
ghost use Rattle.xod_trie_mut.specs.Stops.{CountsStops, StopsBy};

use crate::finger::{Finger, Level, Opened};
use crate::loading::load;
use crate::own_branch::OwnBranch;
use crate::seat::Seat;
use crate::settling::settle;
use crate::stop::Stop;
use std::alloc::Global;
use xod_base::{Listed, ReadError};
use xod_block::Fetch;
use xod_trie::behind;

/// What is left of a key behind so many bytes.
pub fn rest_of(key: &[u8], taken: usize) -> &[u8]
    ensures exactly { result.now ≡ drop taken key.now }
    ensures fits { length key.now < 2 ^ 64 }
{
    if taken > key.len() {
        return &[];
    }
    let (_, rest) = key.split_at(taken);
    rest
}

/// The child at which a key goes on, and its byte.
fn step(branch: &OwnBranch, rest: &[u8]) -> Option<(u8, Seat)>
    ensures goes { IfSome result (λ next. GoesAt branch.now rest.now next.0 next.1) }
    ensures stays { IfNone result (StaysAt branch.now rest.now) }
{
    let left = behind(branch.key(), rest)?;
    let (byte, _) = left.split_first()?;
    let child = branch.child_under(*byte)?;
    Some((*byte, child))
}

/// Leaves a branch in hand for the one above it. Where it was not changed, the one above is not changed either.
fn leave<F: Fetch>(
    fetch: &mut F,
    alloc: Global,
    own: &mut Listed<OwnBranch>,
    level: Level,
    focus: Opened,
) -> Result<Opened, Stop>
    ensures leaves { (base : Option Address) (taken : ℕ) → AreOwn base own.old
        → IsHeld base (length own.old) taken level.opened
        → AreLower base (length own.old) focus.branch.children → IfOk result
        (IsLeft (F.tells fetch.old) (F.records fetch.old) base own.old own.new taken level focus) }
    ensures stops { (base : Option Address) → AreOwn base own.old
        → AreLower base (length own.old) focus.branch.children → IfErr result
        (StopsBy (F.tells fetch.old) (F.records fetch.old)
        (HaveMaps (with_own own.old (F.records fetch.old)) focus.branch.children)
        (ValuesFit (value_by (value_at (with_own own.old (F.records fetch.old))) focus.branch))) }
    ensures untouched { focus.changed ≡ false → IfOk result (λ made.
        (own.new ≡ own.old) × (made ≡ level.opened)) }
    ensures extends { Extends own.old own.new }
    ensures counts { CountsStops (F.faults fetch.old) (F.faults fetch.new) result }
    ensures stays { Stays F.tells F.records F.refs F.faults fetch.old fetch.new }
{
    let Level { opened, byte } = level;
    if !focus.changed {
        return Ok(opened);
    }
    let at = match settle(fetch, alloc, own, focus.branch) {
        Ok(at) => at,
        Err(stop) => return Err(stop),
    };
    let taken = opened.taken;
    match opened.branch.relinked(byte, at) {
        Ok(branch) => Ok(Opened {
            branch,
            changed: true,
            taken,
        }),
        Err(_) => Err(Stop::Read(ReadError::Memory)),
    }
}

/// Leaves what is in hand, until no more than so many bytes stand before it.
pub fn turn_back<F: Fetch>(
    fetch: &mut F,
    alloc: Global,
    own: &mut Listed<OwnBranch>,
    finger: Finger,
    until: usize,
) -> Result<Finger, Stop>
    ensures finger { (base root : Option Address) (map : Option TrieMap)
        → IsInHand (F.tells fetch.old) (F.records fetch.old) base root own.old finger map
        → IfOk result (λ made.
        IsInHand (F.tells fetch.old) (F.records fetch.old) base root own.new made map) }
    ensures low { (base root : Option Address) (map : Option TrieMap)
        → IsInHand (F.tells fetch.old) (F.records fetch.old) base root own.old finger map
        → IfOk result (λ made. made.focus.taken ≤ until) }
    ensures front { IfOk result (λ made. Extends made.levels.items finger.levels.items) }
    ensures stops { (base root : Option Address) (map : Option TrieMap)
        → IsInHand (F.tells fetch.old) (F.records fetch.old) base root own.old finger map
        → IfErr result
        (StopsBy (F.tells fetch.old) (F.records fetch.old) (IsSome map) (IfSome map KeysFit)) }
    ensures untouched { IsUntouched finger → IfOk result (λ made.
        (own.new ≡ own.old) × IsUntouched made) }
    ensures extends { Extends own.old own.new }
    ensures counts { CountsStops (F.faults fetch.old) (F.faults fetch.new) result }
    ensures stays { Stays F.tells F.records F.refs F.faults fetch.old fetch.new }
{
    let Finger { levels, focus } = finger;
    let mut levels = levels;
    let mut focus = focus;
    'up: while focus.taken > until {
        let Some(level) = levels.pop() else {
            return Ok(Finger { levels, focus });
        };
        focus = match leave(fetch, alloc, own, level, focus) {
            Ok(above) => above,
            Err(stop) => return Err(stop),
        };
    }
    Ok(Finger { levels, focus })
}

/// Goes down to where a key goes no further.
pub fn go_down<F: Fetch>(
    fetch: &mut F,
    alloc: Global,
    own: &Listed<OwnBranch>,
    finger: Finger,
    key: &[u8],
) -> Result<Finger, Stop>
    ensures finger { (base root : Option Address) (map : Option TrieMap)
        → IsInHand (F.tells fetch.old) (F.records fetch.old) base root own.now finger map
        → IfOk result (λ made.
        IsInHand (F.tells fetch.old) (F.records fetch.old) base root own.now made map) }
    ensures stays_at { IfOk result (λ made.
        StaysAt made.focus.branch (drop made.focus.taken key.now)) }
    ensures on_way { IsOnWay key.now finger → IfOk result (IsOnWay key.now) }
    ensures stops { (base root : Option Address) (map : Option TrieMap)
        → IsInHand (F.tells fetch.old) (F.records fetch.old) base root own.now finger map
        → IfErr result
        (StopsBy (F.tells fetch.old) (F.records fetch.old) (IsSome map) (IfSome map KeysFit)) }
    ensures untouched { IsUntouched finger → IfOk result IsUntouched }
    ensures counts { CountsStops (F.faults fetch.old) (F.faults fetch.new) result }
    ensures stays { Stays F.tells F.records F.refs F.faults fetch.old fetch.new }
{
    let Finger { levels, focus } = finger;
    let mut levels = levels;
    let mut focus = focus;
    'down: loop {
        let Some(link) = step(&focus.branch, rest_of(key, focus.taken)) else {
            return Ok(Finger { levels, focus });
        };
        let branch = match load(fetch, alloc, own, link.1) {
            Ok(branch) => branch,
            Err(stop) => return Err(stop),
        };
        let taken = focus.taken + focus.branch.key().len() + 1;
        let level = Level {
            opened: focus,
            byte: link.0,
        };
        if levels.push(level).is_err() {
            return Err(Stop::Read(ReadError::Memory));
        }
        focus = Opened {
            branch,
            changed: false,
            taken,
        };
    }
}
