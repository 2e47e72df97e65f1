//! Setting and removing the value of a key at the branch where the way to it ends.
ghost use Rattle.std.specs.Prelude.{◌≡◌, ◌≢◌, ◌≤◌, ◌<◌, ◌+◌, ◌^◌, ◌++◌, ℕ, Bool, List, Option, Some, None, [], ◌∷◌, false, length, take, drop, get_or, IsTrue, IsSome, IfSome, IfOk, IfErr};
ghost use Rattle.std.specs.Option.{option_map};
ghost use Rattle.xod_block.specs.declared.address.Address.{Address};
ghost use Rattle.xod_block.specs.Fetches.{Stays};
ghost use Rattle.xod_block.specs.Maps.{RecordsAt};
ghost use Rattle.xod_block.specs.Records.{FitsPart};
ghost use Rattle.xod_trie.specs.declared.branch.Branch.{Branch};
ghost use Rattle.xod_trie.specs.Branches.{behind, value_by};
ghost use Rattle.xod_trie.specs.Tries.{TrieMap, value_at};
ghost use Rattle.xod_trie_mut.specs.Changes.{KeysFit, set_in};
ghost use Rattle.xod_trie_mut.specs.Fingers.{AreLower, Below, Extends, HaveMaps, IsInHand, IsOnWay, IsUntouched, SetsKey, StaysAt, ValuesFit, path_of};
ghost use Rattle.xod_trie_mut.specs.Links.{IsBare};
ghost use Rattle.xod_trie_mut.specs.Own.{AreOwn, with_own};
ghost use Rattle.xod_trie_mut.specs.Settling.{IsOpened};
ghost use Rattle.xod_trie_mut.specs.Stops.{CountsStops, StopsBy};

use crate::finger::{Finger, Level, Opened};
use crate::own_branch::{Halves, OwnBranch};
use crate::settling::settle;
use crate::stop::Stop;
use std::alloc::Global;
use xod_base::{Listed, Memory, ReadError};
use xod_block::Fetch;
use xod_trie::{behind, copied};

/// How many bytes both begin with.
pub fn common(front: &[u8], key: &[u8]) -> usize
    ensures front { result ≤ length front.now }
    ensures key { result ≤ length key.now }
    ensures same { take result front.now ≡ take result key.now }
    ensures apart { result < length front.now → result < length key.now
        → (d : ℕ) → get_or front.now result d ≢ get_or key.now result d }
{
    let mut count = 0;
    'same: while count < front.len() && count < key.len() && front[count] == key[count] {
        count += 1;
    }
    count
}

/// A branch in hand whose key part is the front of a key: the one given, or a new one above what is left of it.
fn opened<F: Fetch>(
    fetch: &mut F,
    alloc: Global,
    own: &mut Listed<OwnBranch>,
    focus: Opened,
    rest: &[u8],
) -> Result<Opened, Stop>
    ensures opens { (base : Option Address) → AreOwn base own.old
        → AreLower base (length own.old) focus.branch.children → IfOk result
        (IsOpened (F.tells fetch.old) (F.records fetch.old) base own.old own.new focus) }
    ensures taken { IfOk result (λ made. made.taken ≡ focus.taken) }
    ensures front { IfOk result (λ made. IsSome (behind made.branch.key rest.now)) }
    ensures stays_at { StaysAt focus.branch rest.now → IfOk result (λ made.
        StaysAt made.branch rest.now) }
    ensures same { IsSome (behind focus.branch.key rest.now) → IfOk result (λ made.
        (own.new ≡ own.old) × (made ≡ focus)) }
    ensures stops { (base : Option Address) → AreOwn base own.old
        → AreLower base (length own.old) focus.branch.children → IfErr result
        (StopsBy (F.tells fetch.old) (F.records fetch.old)
        (HaveMaps (with_own own.old (F.records fetch.old)) focus.branch.children)
        (ValuesFit (value_by (value_at (with_own own.old (F.records fetch.old))) focus.branch))) }
    ensures extends { Extends own.old own.new }
    ensures counts { CountsStops (F.faults fetch.old) (F.faults fetch.new) result }
    ensures stays { Stays F.tells F.records F.refs F.faults fetch.old fetch.new }
{
    let count = common(focus.branch.key(), rest);
    if count == focus.branch.key().len() {
        return Ok(focus);
    }
    let Opened { branch, taken, .. } = focus;
    let Halves { upper, byte, lower } = match branch.cut(alloc, count) {
        Ok(halves) => halves,
        Err(_) => return Err(Stop::Read(ReadError::Memory)),
    };
    let at = match settle(fetch, alloc, own, lower) {
        Ok(at) => at,
        Err(stop) => return Err(stop),
    };
    match upper.relinked(byte, at) {
        Ok(branch) => Ok(Opened {
            branch,
            changed: true,
            taken,
        }),
        Err(_) => Err(Stop::Read(ReadError::Memory)),
    }
}

/// Sets the value of a key at a branch without a value or a child: it becomes the leaf of that key.
fn planted(alloc: Global, finger: Finger, rest: &[u8], value: &[u8]) -> Result<Finger, Memory>
    requires bare { IsBare finger.focus.branch }
    requires rest { FitsPart rest.now }
    requires value { FitsPart value.now }
    ensures sets { IfOk result (SetsKey finger rest.now (Some value.now)) }
    ensures on_way { (key : List ℕ) → IsOnWay key finger → IfOk result (IsOnWay key) }
{
    let Finger { levels, focus } = finger;
    let branch = OwnBranch::leaf(alloc, rest, value)?;
    Ok(Finger {
        levels,
        focus: Opened {
            branch,
            changed: true,
            taken: focus.taken,
        },
    })
}

/// Sets the value of the key that ends at the branch in hand. Where it has that value already, nothing is changed.
fn valued(alloc: Global, finger: Finger, value: &[u8]) -> Result<Finger, Memory>
    requires { FitsPart value.now }
    ensures sets { (rest : List ℕ) → behind finger.focus.branch.key rest ≡ Some []
        → IfOk result (SetsKey finger rest (Some value.now)) }
    ensures on_way { (key : List ℕ) → IsOnWay key finger → IfOk result (IsOnWay key) }
    ensures untouched { finger.focus.branch.value ≡ Some value.now
        → IsUntouched finger → IfOk result IsUntouched }
{
    let Finger { levels, focus } = finger;
    if focus.branch.has_value(value) {
        return Ok(Finger { levels, focus });
    }
    let value = copied(alloc, value)?;
    let Opened { branch, taken, .. } = focus;
    Ok(Finger {
        levels,
        focus: Opened {
            branch: branch.with_value(value),
            changed: true,
            taken,
        },
    })
}

/// Sets the value of a key that goes on from the branch in hand under a byte without a child: a new leaf comes there.
fn grown(
    alloc: Global,
    finger: Finger,
    byte: u8,
    left: &[u8],
    value: &[u8],
) -> Result<Finger, Memory>
    requires left { FitsPart left.now }
    requires value { FitsPart value.now }
    requires taken { finger.focus.taken + length finger.focus.branch.key + 1 < 2 ^ 64 }
    ensures sets { (rest : List ℕ)
        → behind finger.focus.branch.key rest ≡ Some (byte ∷ left.now)
        → StaysAt finger.focus.branch rest → IfOk result (SetsKey finger rest (Some value.now)) }
    ensures on_way { (key : List ℕ) → IsOnWay key finger
        → behind finger.focus.branch.key (drop finger.focus.taken key) ≡ Some (byte ∷ left.now)
        → IfOk result (IsOnWay key) }
{
    let Finger { levels, focus } = finger;
    let branch = OwnBranch::leaf(alloc, left, value)?;
    let taken = focus.taken + focus.branch.key().len() + 1;
    let mut levels = levels;
    levels.push(Level {
        opened: focus,
        byte,
    })?;
    Ok(Finger {
        levels,
        focus: Opened {
            branch,
            changed: true,
            taken,
        },
    })
}

/// Sets the value of a key behind the key part of the branch in hand.
fn put_behind(alloc: Global, finger: Finger, rest: &[u8], value: &[u8]) -> Result<Finger, Memory>
    requires front { IsSome (behind finger.focus.branch.key rest.now) }
    requires rest { FitsPart rest.now }
    requires value { FitsPart value.now }
    requires taken { finger.focus.taken + length rest.now < 2 ^ 64 }
    ensures sets { StaysAt finger.focus.branch rest.now
        → IfOk result (SetsKey finger rest.now (Some value.now)) }
    ensures on_way { (key : List ℕ) → IsOnWay key finger
        → rest.now ≡ drop finger.focus.taken key → IfOk result (IsOnWay key) }
    ensures untouched { (below : Below) → StaysAt finger.focus.branch rest.now
        → value_by below finger.focus.branch rest.now ≡ Some value.now
        → IsUntouched finger → IfOk result IsUntouched }
{
    let Some(left) = behind(finger.focus.branch.key(), rest) else {
        unreachable!()
    };
    let Some((byte, more)) = left.split_first() else {
        return valued(alloc, finger, value);
    };
    grown(alloc, finger, *byte, more, value)
}

/// Sets the value of a key where the way to it ends.
pub fn put_here<F: Fetch>(
    fetch: &mut F,
    alloc: Global,
    own: &mut Listed<OwnBranch>,
    finger: Finger,
    rest: &[u8],
    value: &[u8],
) -> Result<Finger, Stop>
    requires stays { StaysAt finger.focus.branch rest.now }
    requires rest { FitsPart rest.now }
    requires value { FitsPart value.now }
    requires taken { finger.focus.taken + length rest.now < 2 ^ 64 }
    ensures sets { (base root : Option Address) (map : Option TrieMap)
        → IsInHand (F.tells fetch.old) (F.records fetch.old) base root own.old finger map
        → IfOk result (λ made.
        IsInHand (F.tells fetch.old) (F.records fetch.old) base root own.new made
        (option_map (λ m.
        set_in m (path_of finger.levels.items ++ rest.now) (Some value.now)) map)) }
    ensures on_way { (key : List ℕ) → IsOnWay key finger
        → rest.now ≡ drop finger.focus.taken key → IfOk result (IsOnWay key) }
    ensures stops { (base root : Option Address) (map : Option TrieMap)
        → IsInHand (F.tells fetch.old) (F.records fetch.old) base root own.old finger map
        → IfErr result
        (StopsBy (F.tells fetch.old) (F.records fetch.old) (IsSome map) (IfSome map KeysFit)) }
    ensures untouched { (below : Below)
        → value_by below finger.focus.branch rest.now ≡ Some value.now
        → IsUntouched finger → IfOk result (λ made.
        (own.new ≡ own.old) × IsUntouched made) }
    ensures extends { Extends own.old own.new }
    ensures counts { CountsStops (F.faults fetch.old) (F.faults fetch.new) result }
    ensures stays { Stays F.tells F.records F.refs F.faults fetch.old fetch.new }
{
    if finger.focus.branch.is_bare() {
        return match planted(alloc, finger, rest, value) {
            Ok(made) => Ok(made),
            Err(_) => Err(Stop::Read(ReadError::Memory)),
        };
    }
    let Finger { levels, focus } = finger;
    let focus = match opened(fetch, alloc, own, focus, rest) {
        Ok(focus) => focus,
        Err(stop) => return Err(stop),
    };
    match put_behind(alloc, Finger { levels, focus }, rest, value) {
        Ok(made) => Ok(made),
        Err(_) => Err(Stop::Read(ReadError::Memory)),
    }
}

/// Whether a key ends at a branch that has a value.
fn ends_here(branch: &OwnBranch, rest: &[u8]) -> bool
    ensures here { IsTrue result
        → (behind branch.now.key rest.now ≡ Some []) × IsSome branch.now.value }
    ensures not_here { result ≡ false → behind branch.now.key rest.now ≡ Some []
        → branch.now.value ≡ None }
{
    match behind(branch.key(), rest) {
        None => false,
        Some(left) => left.is_empty() && branch.value().is_some(),
    }
}

/// Removes the value of a key where the way to it ends. Where it has none, nothing is changed.
pub fn remove_here(finger: Finger, rest: &[u8]) -> Finger
    requires { StaysAt finger.focus.branch rest.now }
    ensures sets { SetsKey finger rest.now None result }
    ensures on_way { (key : List ℕ) → IsOnWay key finger → IsOnWay key result }
    ensures untouched { (below : Below) → value_by below finger.focus.branch rest.now ≡ None
        → IsUntouched finger → IsUntouched result }
{
    if !ends_here(&finger.focus.branch, rest) {
        return finger;
    }
    let Finger { levels, focus } = finger;
    let Opened { branch, taken, .. } = focus;
    Finger {
        levels,
        focus: Opened {
            branch: branch.without_value(),
            changed: true,
            taken,
        },
    }
}
