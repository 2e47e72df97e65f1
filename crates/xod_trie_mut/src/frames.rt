//! Branches that wait until their children have new addresses.
ghost use Rattle.std.specs.Prelude.{◌≡◌, ◌<◌, [], length, IfOk, IsSome};
ghost use Rattle.std.specs.Option.{option_map};
ghost use Rattle.xod_trie_mut.specs.Frames.{byte_in, with_child, next_of};

use crate::own_branch::{OwnBranch, Seats};
use crate::seat::Seat;
use std::alloc::Global;
use xod_base::Memory;

/// A branch of a list, by its place there, and its first children with their new addresses.
#[derive(Debug, Drop)]
pub struct Frame {
    pub index: usize,
    pub list: Seats,
}

/// A branch of which no child has a new address yet.
pub fn first_frame(alloc: Global, index: usize) -> Frame
    ensures { result ≡ record { index = index; list = [] } }
{
    Frame {
        index,
        list: Seats::new(alloc),
    }
}

/// Where the child that comes next stood.
pub fn next_seat(own: &[OwnBranch], frame: &Frame) -> Option<Seat>
    requires { frame.now.index < length own.now }
    ensures { result ≡ option_map (λ child. child.1) (next_of own.now frame.now) }
{
    let children = own[frame.index].children();
    let place = frame.list.len();
    if place >= children.len() {
        return None;
    }
    Some(children[place].1)
}

/// The byte of the child that comes next.
fn next_byte(own: &[OwnBranch], frame: &Frame) -> u8
    requires inside { frame.now.index < length own.now }
    requires next { IsSome (next_of own.now frame.now) }
    ensures { result ≡ byte_in (next_of own.now frame.now) }
{
    let children = own[frame.index].children();
    children[frame.list.len()].0
}

/// The child that comes next has its new address.
pub fn with_next(own: &[OwnBranch], frame: Frame, at: Seat) -> Result<Frame, Memory>
    requires inside { frame.index < length own.now }
    requires next { IsSome (next_of own.now frame) }
    ensures { IfOk result (λ next.
        next ≡ with_child frame (byte_in (next_of own.now frame)) at) }
{
    let byte = next_byte(own, &frame);
    let mut list = frame.list;
    list.push((byte, at))?;
    Ok(Frame {
        index: frame.index,
        list,
    })
}
