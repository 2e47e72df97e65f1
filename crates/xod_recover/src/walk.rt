//! A walk over all that a root names.
//!
//! It goes down to the next child that is left, and keeps the records above on a stack of its own.
//! What it walked to the end is not read again, so it reads each record once.
ghost use Rattle.std.specs.Prelude.{◌≡◌, ◌++◌, ◌∷◌, [], ◌≤◌, nat_lt, true, ℕ, Bool, is_ok, if◌then◌else◌, length, Some, None, IsTrue, OnOk, IfSome, IfNone};
ghost use Rattle.xod_base.specs.declared.causes.Place.{Place};
ghost use Rattle.xod_base.specs.declared.causes.ReadError.TheVariants.{Damaged};
ghost use Rattle.xod_base.specs.Views.{CountsFaults};
ghost use Rattle.xod_block.specs.Addresses.{number_of};
ghost use Rattle.xod_block.specs.Fetches.{Stays};
ghost use Rattle.xod_block.specs.Maps.{RecordsAt};
ghost use Rattle.xod_recover.specs.Frames.{AreClean, IsReady, StandInBodies, bad_below, lists_body};
ghost use Rattle.xod_recover.specs.Walks.{are_below, bad_trees, bad_under};
ghost use Rattle.xod_recover.specs.Ways.{Advances, IsLeft, left_of};

use crate::enter::{enter, number_of};
use std::alloc::Global;
use std::collections::HashSet;
use xod_base::{Memory, ReadError};
use xod_block::{Address, Fetch};
use xod_trie::Links;

/// A record on the way down: its address, and its children, of which `next` is the first that is
/// left.
#[derive(Debug, Drop)]
pub struct Frame {
    pub at: Address,
    pub children: Links,
    pub next: usize,
}

/// The next child of a frame, which goes on behind it. Without one it stays.
fn advance(frame: &mut Frame) -> Option<Address>
    ensures next { IfSome result (Advances frame.old frame.new) }
    ensures end { IfNone result (left_of frame.old ≡ []) }
    ensures at_same { frame.new.at ≡ frame.old.at }
{
    let children = frame.children.as_slice();
    if frame.next >= children.len() {
        return None;
    }
    let (_, at) = children[frame.next];
    frame.next += 1;
    Some(at)
}

/// Puts a frame on top of the way.
fn put(way: &mut Vec<Frame>, frame: Frame) -> Result<(), Memory>
    ensures { OnOk result (way.new.items ≡ way.old.items ++ frame ∷ []) }
{
    way.push(frame)?;
    Ok(())
}

/// Notes that all below an address is walked.
fn note(walked: &mut HashSet<u128>, at: Address) -> Result<(), Memory>
    ensures { OnOk result ((records : RecordsAt) (has_body : ℕ → Bool)
        → AreClean records has_body walked.old → bad_below records has_body at ≡ None
        → AreClean records has_body walked.new) }
{
    walked.insert(number_of(at))?;
    Ok(())
}

/// Walks all below a record.
fn walk_below<F: Fetch>(
    alloc: Global,
    fetch: &mut F,
    numbers: &[u64],
    walked: &mut HashSet<u128>,
    first: Frame,
) -> Result<(), ReadError>
    requires few { length first.children ≤ 256 }
    ensures whole { IsReady (F.tells fetch.old) (F.records fetch.old) (lists_body numbers.now)
        walked.old
        → IsLeft (F.records fetch.old) (lists_body numbers.now) None first
        → OnOk result (bad_below (F.records fetch.old) (lists_body numbers.now) first.at ≡ None) }
    ensures clean { IsReady (F.tells fetch.old) (F.records fetch.old) (lists_body numbers.now)
        walked.old
        → IsLeft (F.records fetch.old) (lists_body numbers.now) None first
        → OnOk result (AreClean (F.records fetch.old) (lists_body numbers.now) walked.new) }
    ensures damaged { IsReady (F.tells fetch.old) (F.records fetch.old) (lists_body numbers.now)
        walked.old
        → IsLeft (F.records fetch.old) (lists_body numbers.now) None first
        → (place : Place) → result ≡ Err (Damaged place)
        → bad_below (F.records fetch.old) (lists_body numbers.now) first.at ≡ Some place }
    ensures counts { CountsFaults (F.faults fetch.old) (F.faults fetch.new) result }
    ensures stays { Stays F.tells F.records F.refs F.faults fetch.old fetch.new }
{
    let mut top = first;
    let mut way: Vec<Frame> = Vec::new(alloc);
    'down: loop {
        match advance(&mut top) {
            Some(child) => {
                let found = enter(alloc, fetch, numbers, walked, top.at, child)?;
                if let Some(children) = found {
                    put(&mut way, top)?;
                    top = Frame {
                        at: child,
                        children,
                        next: 0,
                    };
                }
            }
            None => {
                note(walked, top.at)?;
                match way.pop() {
                    None => return Ok(()),
                    Some(frame) => top = frame,
                }
            }
        }
    }
}

/// Walks what a record names.
fn walk_tree<F: Fetch>(
    alloc: Global,
    fetch: &mut F,
    numbers: &[u64],
    walked: &mut HashSet<u128>,
    naming: Address,
    at: Address,
) -> Result<(), ReadError>
    ensures whole { IsReady (F.tells fetch.old) (F.records fetch.old) (lists_body numbers.now)
        walked.old
        → OnOk result (bad_under (F.records fetch.old) (lists_body numbers.now) naming at ≡ None) }
    ensures clean { IsReady (F.tells fetch.old) (F.records fetch.old) (lists_body numbers.now)
        walked.old
        → OnOk result (AreClean (F.records fetch.old) (lists_body numbers.now) walked.new) }
    ensures damaged { IsReady (F.tells fetch.old) (F.records fetch.old) (lists_body numbers.now)
        walked.old
        → (place : Place) → result ≡ Err (Damaged place)
        → bad_under (F.records fetch.old) (lists_body numbers.now) naming at ≡ Some place }
    ensures below { OnOk result (nat_lt (number_of at) (number_of naming) ≡ true) }
    ensures counts { CountsFaults (F.faults fetch.old) (F.faults fetch.new) result }
    ensures stays { Stays F.tells F.records F.refs F.faults fetch.old fetch.new }
{
    match enter(alloc, fetch, numbers, walked, naming, at)? {
        None => Ok(()),
        Some(children) => {
            let first = Frame {
                at,
                children,
                next: 0,
            };
            walk_below(alloc, fetch, numbers, walked, first)
        }
    }
}

/// Walks all that a root names, tree by tree. `Damaged` is the first bad place. The volume files
/// are listed by number: what names a log file without a body is bad.
pub fn walk_trees<F: Fetch>(
    alloc: Global,
    fetch: &mut F,
    numbers: &[u64],
    root: Address,
    trees: &[(u8, Address)],
) -> Result<(), ReadError>
    ensures whole { IsTrue (F.tells fetch.old)
        → StandInBodies (F.records fetch.old) (lists_body numbers.now)
        → OnOk result (bad_trees (F.records fetch.old) (lists_body numbers.now) root trees.now
        ≡ None) }
    ensures damaged { IsTrue (F.tells fetch.old)
        → StandInBodies (F.records fetch.old) (lists_body numbers.now)
        → (place : Place) → result ≡ Err (Damaged place)
        → bad_trees (F.records fetch.old) (lists_body numbers.now) root trees.now ≡ Some place }
    ensures below { OnOk result (are_below root trees.now ≡ true) }
    ensures counts { CountsFaults (F.faults fetch.old) (F.faults fetch.new) result }
    ensures stays { Stays F.tells F.records F.refs F.faults fetch.old fetch.new }
{
    let mut walked: HashSet<u128> = HashSet::new(alloc);
    for (_, at) in trees {
        walk_tree(alloc, fetch, numbers, &mut walked, root, *at)?;
    }
    Ok(())
}
