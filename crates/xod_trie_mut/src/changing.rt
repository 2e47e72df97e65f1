//! One change after another, with the way to the last key in hand.
ghost use Rattle.std.specs.Prelude.{◌≡◌, ◌<◌, ◌^◌, ℕ, List, [], Option, Some, false, length, take, IsTrue, IsSome, IfSome, IfOk, IfErr, OnErr};
ghost use Rattle.std.specs.FinMap.{get};
ghost use Rattle.std.specs.Option.{option_map, option_copied};
ghost use Rattle.xod_base.specs.Views.{CountsFaults};
ghost use Rattle.xod_block.specs.declared.address.Address.{Address};
ghost use Rattle.xod_block.specs.Fetches.{Stays};
ghost use Rattle.xod_trie.specs.Tries.{TrieMap, trie_map};
ghost use Rattle.xod_trie_mut.specs.Changes.{FitsToSet, FitToSet, KeysFit, SetNothing, with_change, with_changes};
ghost use Rattle.xod_trie_mut.specs.Fingers.{Extends, IsClosed, IsInHand, IsOnWay, IsUntouched};
ghost use Rattle.xod_trie_mut.specs.Own.{AreOwn, IsRoot, with_own};
ghost use Rattle.xod_trie_mut.specs.Stops.{Breaks, CountsStops, StopsBy};

use crate::change::Change;
use crate::finger::{Finger, Opened};
use crate::loading::load;
use crate::looking::too_long;
use crate::own_branch::OwnBranch;
use crate::placing::{common, put_here, remove_here};
use crate::seat::Seat;
use crate::settling::settle;
use crate::stop::Stop;
use crate::way::{go_down, rest_of, turn_back};
use std::alloc::Global;
use std::mem;
use xod_base::{Listed, ReadError};
use xod_block::Fetch;

/// Turns from the last key to that of a change, and makes the change.
fn change_one<F: Fetch>(
    fetch: &mut F,
    alloc: Global,
    own: &mut Listed<OwnBranch>,
    finger: Finger,
    last: &[u8],
    change: Change<'_>,
) -> Result<Finger, Stop>
    requires { FitsToSet change }
    ensures changes { (base root : Option Address) (map : Option TrieMap)
        → IsInHand (F.tells fetch.old) (F.records fetch.old) base root own.old finger map
        → IsOnWay last.now finger → IfOk result (λ made.
        IsInHand (F.tells fetch.old) (F.records fetch.old) base root own.new made
        (option_map (λ m. with_change m change.entry) map)) }
    ensures on_way { (base root : Option Address) (map : Option TrieMap)
        → IsInHand (F.tells fetch.old) (F.records fetch.old) base root own.old finger map
        → IsOnWay last.now finger → IfOk result (λ made.
        IsOnWay change.entry.key.now made) }
    ensures stops { (base root : Option Address) (map : Option TrieMap)
        → IsInHand (F.tells fetch.old) (F.records fetch.old) base root own.old finger map
        → IsOnWay last.now finger → IfErr result
        (StopsBy (F.tells fetch.old) (F.records fetch.old) (IsSome map) (IfSome map KeysFit)) }
    ensures untouched { (base root : Option Address) (map : TrieMap)
        → IsInHand (F.tells fetch.old) (F.records fetch.old) base root own.old finger (Some map)
        → IsOnWay last.now finger → IsTrue (F.tells fetch.old)
        → get map change.entry.key.now ≡ option_copied change.entry.value
        → IsUntouched finger → IfOk result (λ made.
        (own.new ≡ own.old) × IsUntouched made) }
    ensures extends { Extends own.old own.new }
    ensures counts { CountsStops (F.faults fetch.old) (F.faults fetch.new) result }
    ensures stays { Stays F.tells F.records F.refs F.faults fetch.old fetch.new }
{
    let until = common(last, change.key);
    let above = match turn_back(fetch, alloc, own, finger, until) {
        Ok(above) => above,
        Err(stop) => return Err(stop),
    };
    let here = match go_down(fetch, alloc, own, above, change.key) {
        Ok(here) => here,
        Err(stop) => return Err(stop),
    };
    let rest = rest_of(change.key, here.focus.taken);
    match change.value {
        None => Ok(remove_here(here, rest)),
        Some(value) => put_here(fetch, alloc, own, here, rest, value),
    }
}

/// Makes changes, the first one first.
fn change_all<F: Fetch>(
    fetch: &mut F,
    alloc: Global,
    own: &mut Listed<OwnBranch>,
    finger: Finger,
    changes: &[Change<'_>],
) -> Result<Finger, Stop>
    requires { FitToSet changes.now }
    ensures changes { (base root : Option Address) (map : Option TrieMap)
        → IsInHand (F.tells fetch.old) (F.records fetch.old) base root own.old finger map
        → IsOnWay [] finger → IfOk result (λ made.
        IsInHand (F.tells fetch.old) (F.records fetch.old) base root own.new made
        (option_map (λ m. with_changes m changes.now) map)) }
    ensures stops { (base root : Option Address) (map : Option TrieMap)
        → IsInHand (F.tells fetch.old) (F.records fetch.old) base root own.old finger map
        → IsOnWay [] finger → IfErr result
        (StopsBy (F.tells fetch.old) (F.records fetch.old) (IsSome map) (IfSome map KeysFit)) }
    ensures untouched { (base root : Option Address) (map : TrieMap)
        → IsInHand (F.tells fetch.old) (F.records fetch.old) base root own.old finger (Some map)
        → IsOnWay [] finger → IsTrue (F.tells fetch.old)
        → SetNothing map changes.now → IsUntouched finger → IfOk result (λ made.
        (own.new ≡ own.old) × IsUntouched made) }
    ensures extends { Extends own.old own.new }
    ensures counts { CountsStops (F.faults fetch.old) (F.faults fetch.new) result }
    ensures stays { Stays F.tells F.records F.refs F.faults fetch.old fetch.new }
{
    let mut finger = finger;
    let mut last: &[u8] = &[];
    'each: for change in changes {
        finger = match change_one(fetch, alloc, own, finger, last, *change) {
            Ok(made) => made,
            Err(stop) => return Err(stop),
        };
        last = change.key;
    }
    Ok(finger)
}

/// Takes the branch under a root in hand. Without a root it is one of no key.
fn opened_root<F: Fetch>(
    fetch: &mut F,
    alloc: Global,
    own: &Listed<OwnBranch>,
    root: Option<Seat>,
) -> Result<Finger, Stop>
    ensures opens { (base : Option Address) → AreOwn base own.now
        → IsRoot base (length own.now) root → IfOk result (λ made.
        IsInHand (F.tells fetch.old) (F.records fetch.old) base root own.now made
        (trie_map (with_own own.now (F.records fetch.old)) root)) }
    ensures on_way { IfOk result (IsOnWay []) }
    ensures stops { (base : Option Address) → AreOwn base own.now
        → IsRoot base (length own.now) root → IfErr result
        (StopsBy (F.tells fetch.old) (F.records fetch.old)
        (IsSome (trie_map (with_own own.now (F.records fetch.old)) root)) (Unit {0})) }
    ensures untouched { IfOk result IsUntouched }
    ensures counts { CountsStops (F.faults fetch.old) (F.faults fetch.new) result }
    ensures stays { Stays F.tells F.records F.refs F.faults fetch.old fetch.new }
{
    match root {
        None => Ok(Finger {
            levels: Vec::new(alloc),
            focus: Opened {
                branch: OwnBranch::bare(alloc),
                changed: false,
                taken: 0,
            },
        }),
        Some(at) => match load(fetch, alloc, own, at) {
            Ok(branch) => Ok(Finger {
                levels: Vec::new(alloc),
                focus: Opened {
                    branch,
                    changed: false,
                    taken: 0,
                },
            }),
            Err(stop) => Err(stop),
        },
    }
}

/// The root behind changes, and whether they changed anything.
#[derive(Debug, Drop)]
pub struct Made {
    pub root: Option<Seat>,
    pub changed: bool,
}

/// Leaves all that is in hand, and answers the new root: the old one where nothing was changed.
fn closed<F: Fetch>(
    fetch: &mut F,
    alloc: Global,
    own: &mut Listed<OwnBranch>,
    finger: Finger,
    root: Option<Seat>,
) -> Result<Made, Stop>
    ensures closes { (base : Option Address) (map : Option TrieMap)
        → IsInHand (F.tells fetch.old) (F.records fetch.old) base root own.old finger map
        → IsRoot base (length own.old) root → IfOk result (λ made.
        IsClosed (F.tells fetch.old) (F.records fetch.old) base own.new made.root map) }
    ensures same { IfOk result (λ made. made.changed ≡ false → made.root ≡ root) }
    ensures stops { (base : Option Address) (map : Option TrieMap)
        → IsInHand (F.tells fetch.old) (F.records fetch.old) base root own.old finger map
        → IfErr result
        (StopsBy (F.tells fetch.old) (F.records fetch.old) (IsSome map) (IfSome map KeysFit)) }
    ensures untouched { IsUntouched finger → IfOk result (λ made.
        (own.new ≡ own.old) × (made.root ≡ root) × (made.changed ≡ false)) }
    ensures extends { Extends own.old own.new }
    ensures counts { CountsStops (F.faults fetch.old) (F.faults fetch.new) result }
    ensures stays { Stays F.tells F.records F.refs F.faults fetch.old fetch.new }
{
    let Finger { focus, .. } = match turn_back(fetch, alloc, own, finger, 0) {
        Ok(top) => top,
        Err(stop) => return Err(stop),
    };
    if !focus.changed {
        return Ok(Made {
            root,
            changed: false,
        });
    }
    match settle(fetch, alloc, own, focus.branch) {
        Ok(root) => Ok(Made {
            root,
            changed: true,
        }),
        Err(stop) => Err(stop),
    }
}

/// The same root once more.
fn copy_of(root: &Option<Seat>) -> Option<Seat>
    ensures { result ≡ root.now }
{
    match root {
        None => None,
        Some(at) => Some(*at),
    }
}

/// Makes changes in the trie under a root.
fn changed<F: Fetch>(
    fetch: &mut F,
    alloc: Global,
    own: &mut Listed<OwnBranch>,
    root: Option<Seat>,
    changes: &[Change<'_>],
) -> Result<Made, Stop>
    requires { FitToSet changes.now }
    ensures changes { (base : Option Address) → AreOwn base own.old
        → IsRoot base (length own.old) root → IfOk result (λ made.
        IsClosed (F.tells fetch.old) (F.records fetch.old) base own.new made.root
        (option_map (λ m. with_changes m changes.now)
        (trie_map (with_own own.old (F.records fetch.old)) root))) }
    ensures stops { (base : Option Address) → AreOwn base own.old
        → IsRoot base (length own.old) root → IfErr result
        (StopsBy (F.tells fetch.old) (F.records fetch.old)
        (IsSome (trie_map (with_own own.old (F.records fetch.old)) root))
        (IfSome (trie_map (with_own own.old (F.records fetch.old)) root) KeysFit)) }
    ensures untouched { (base : Option Address) → AreOwn base own.old
        → IsRoot base (length own.old) root → IsTrue (F.tells fetch.old)
        → IfSome (trie_map (with_own own.old (F.records fetch.old)) root) (λ map.
        SetNothing map changes.now → IfOk result (λ made.
        (own.new ≡ own.old) × (made.root ≡ root) × (made.changed ≡ false))) }
    ensures same { IfOk result (λ made. made.changed ≡ false → made.root ≡ root) }
    ensures extends { Extends own.old own.new }
    ensures counts { CountsStops (F.faults fetch.old) (F.faults fetch.new) result }
    ensures stays { Stays F.tells F.records F.refs F.faults fetch.old fetch.new }
{
    let first = match opened_root(fetch, alloc, own, copy_of(&root)) {
        Ok(first) => first,
        Err(stop) => return Err(stop),
    };
    let made = match change_all(fetch, alloc, own, first, changes) {
        Ok(made) => made,
        Err(stop) => return Err(stop),
    };
    closed(fetch, alloc, own, made, root)
}

/// Takes the branches behind so many off a list.
fn cut_back(alloc: Global, own: &mut Listed<OwnBranch>, count: usize)
    ensures { own.new ≡ take count own.old }
{
    let mut items = mem::replace(own, Listed::new(alloc)).into_vec();
    items.truncate(count);
    *own = Listed::from_vec(items);
}

/// Makes changes in the trie under a root, and leaves the branches as they were where that is refused.
pub fn changed_or_kept<F: Fetch>(
    fetch: &mut F,
    alloc: Global,
    own: &mut Listed<OwnBranch>,
    root: &Option<Seat>,
    changes: &[Change<'_>],
) -> Result<Made, ReadError>
    requires { FitToSet changes.now }
    ensures changes { (base : Option Address) → AreOwn base own.old
        → IsRoot base (length own.old) root.now → IfOk result (λ made.
        IsClosed (F.tells fetch.old) (F.records fetch.old) base own.new made.root
        (option_map (λ m. with_changes m changes.now)
        (trie_map (with_own own.old (F.records fetch.old)) root.now))) }
    ensures untouched { (base : Option Address) → AreOwn base own.old
        → IsRoot base (length own.old) root.now → IsTrue (F.tells fetch.old)
        → IfSome (trie_map (with_own own.old (F.records fetch.old)) root.now) (λ map.
        SetNothing map changes.now → IfOk result (λ made.
        (own.new ≡ own.old) × (made.root ≡ root.now) × (made.changed ≡ false))) }
    ensures same { IfOk result (λ made. made.changed ≡ false → made.root ≡ root.now) }
    ensures kept { OnErr result (own.new ≡ own.old) }
    ensures breaks { (base : Option Address) → AreOwn base own.old
        → IsRoot base (length own.old) root.now
        → (IsTrue (F.tells fetch.old)
        → IfSome (trie_map (with_own own.old (F.records fetch.old)) root.now) KeysFit)
        → IfErr result
        (Breaks (F.tells fetch.old) (F.records fetch.old)
        (IsSome (trie_map (with_own own.old (F.records fetch.old)) root.now))) }
    ensures extends { Extends own.old own.new }
    ensures counts { CountsFaults (F.faults fetch.old) (F.faults fetch.new) result }
    ensures stays { Stays F.tells F.records F.refs F.faults fetch.old fetch.new }
{
    let count = own.len();
    let stop = match changed(fetch, alloc, own, copy_of(root), changes) {
        Ok(made) => return Ok(made),
        Err(stop) => stop,
    };
    cut_back(alloc, own, count);
    match stop {
        Stop::Read(error) => Err(error),
        Stop::TooLong => Err(too_long(fetch, alloc, own, root)),
    }
}
