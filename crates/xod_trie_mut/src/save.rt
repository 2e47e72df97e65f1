//! What a root in memory reaches, put out.
ghost use Rattle.std.specs.Prelude.{◌≡◌, ◌<◌, ◌^◌, true, length, take, Some, IfOk, OnOk, OnErr, slice_get};
ghost use Rattle.std.specs.List.{AllByRecursion};
ghost use Rattle.xod_trie.specs.Branches.{FitsBranch};
ghost use Rattle.xod_trie.specs.declared.branch.Branch.{Branch};
ghost use Rattle.xod_trie_mut.specs.Frames.{IsDone};
ghost use Rattle.xod_trie_mut.specs.Keeps.{AreOfOneTrie, HasPut, IsPutBehind, IsPutLast, IsPutUnder, with_children};
ghost use Rattle.xod_trie_mut.specs.Own.{is_saved};
ghost use Rattle.xod_trie_mut.specs.Saves.{IsSavedBehind, IsSoundOver, saved_behind, without_base};

use crate::block::Block;
use crate::frames::{Frame, first_frame, next_seat, with_next};
use crate::keep::Keep;
use crate::own_branch::OwnBranch;
use crate::seat::{Seat, Stand};
use std::alloc::Global;
use std::mem;
use xod_base::{Bytes, Memory};
use xod_block::Address;

/// Puts out a branch all of whose children have new addresses.
fn keep_frame<K: Keep>(
    alloc: Global,
    own: &[OwnBranch],
    frame: Frame,
    keeper: &mut K,
) -> Result<Seat, Memory>
    requires { IsDone K.names own.now frame }
    ensures put { (branch : Branch) → slice_get own.now frame.index ≡ Some branch
        → IfOk result (λ at. IsPutLast K.place K.with_last K.names K.takes
        keeper.old keeper.new (with_children branch frame.list) at) }
    ensures refused { OnErr result (keeper.new ≡ keeper.old) }
{
    let Frame { index, list } = frame;
    let branch = &own[index];
    keeper.keep(alloc, branch, list)
}

/// Puts out what the branch at a place of the list reaches, children before their parents and by rising byte, and
/// answers where that branch is now. Depth spends no stack: the branches that wait for a child stand in a list.
pub fn put_under<K: Keep>(
    alloc: Global,
    own: &[OwnBranch],
    index: usize,
    keeper: &mut K,
) -> Result<Seat, Memory>
    requires sound { AreOfOneTrie own.now }
    requires inside { index < length own.now }
    ensures put { IfOk result (λ at.
        IsPutUnder K.place K.with_last K.names K.takes own.now index keeper.old keeper.new at) }
    ensures refused { OnErr result (HasPut K.with_last keeper.old keeper.new) }
{
    let mut top = first_frame(alloc, index);
    let mut stack = Vec::new(alloc);
    'ahead: loop {
        match next_seat(own, &top) {
            Some(child) => match child.stand() {
                Stand::Saved(_) => {
                    top = with_next(own, top, child)?;
                }
                Stand::Own(below) => {
                    if stack.push(top).is_err() {
                        return Err(Memory);
                    }
                    top = first_frame(alloc, below as usize);
                }
            },
            None => {
                let at = keep_frame(alloc, own, top, keeper)?;
                let Some(parent) = stack.pop() else {
                    return Ok(at);
                };
                top = with_next(own, parent, at)?;
            }
        }
    }
}

/// The first bytes alone.
fn cut(bytes: Bytes, count: usize) -> Bytes
    ensures { result ≡ take count bytes }
{
    let mut items = bytes.into_vec();
    items.truncate(count);
    Bytes::from_vec(items)
}

/// The address of a record.
fn address_of(seat: Seat) -> Address
    requires { is_saved seat ≡ true }
    ensures { result ≡ seat }
{
    match seat.stand() {
        Stand::Saved(at) => at,
        Stand::Own(_) => unreachable!(),
    }
}

/// Puts the records of what a branch reaches behind the bytes of a block, of which the first one has an address.
fn put_behind(
    alloc: Global,
    own: &[OwnBranch],
    index: usize,
    at: Address,
    block: &mut Bytes,
) -> Result<Address, Memory>
    requires sound { AreOfOneTrie own.now }
    requires inside { index < length own.now }
    requires small { at.at < 2 ^ 63 }
    ensures put { IfOk result (IsPutBehind at own.now index block.old block.new) }
    ensures refused { OnErr result (block.new ≡ block.old) }
{
    let bytes = mem::replace(block, Bytes::new(alloc));
    let count = bytes.len();
    let mut kept = Block { start: at, bytes };
    let put = put_under(alloc, own, index, &mut kept);
    let Block { bytes, .. } = kept;
    match put {
        Ok(root) => {
            *block = bytes;
            Ok(address_of(root))
        }
        Err(error) => {
            *block = cut(bytes, count);
            Err(error)
        }
    }
}

/// Puts the records of a trie behind the bytes of a block, and answers the address of its root.
pub fn save_trie(
    alloc: Global,
    own: &[OwnBranch],
    root: Option<Seat>,
    at: Address,
    block: &mut Bytes,
) -> Result<Option<Address>, Memory>
    requires sound { IsSoundOver own.now root }
    requires small { at.at < 2 ^ 63 }
    ensures saved { IfOk result (IsSavedBehind at block.old block.new (without_base own.now root)) }
    ensures records { OnOk result (AllByRecursion FitsBranch
        (saved_behind at block.old (without_base own.now root)).branches) }
    ensures refused { OnErr result (block.new ≡ block.old) }
{
    let Some(seat) = root else {
        return Ok(None);
    };
    match seat.stand() {
        Stand::Saved(root) => Ok(Some(root)),
        Stand::Own(index) => {
            let root = put_behind(alloc, own, index as usize, at, block)?;
            Ok(Some(root))
        }
    }
}
