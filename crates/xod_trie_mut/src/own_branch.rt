//! A leaf or a node in memory.
ghost use Rattle.std.specs.Prelude.{◌≡◌, ◌≤◌, ◌<◌, ◌⊎◌, ◌+◌, ◌^◌, ◌↔◌, ◌++◌, ◌∷◌, [], length, take, drop, map, slice_get, Option, Some, None, IfOk, IfSome, IfNone, IsTrue};
ghost use Rattle.xod_block.specs.declared.address.Address.{Address};
ghost use Rattle.std.specs.Option.{option_map, option_copied};
ghost use Rattle.xod_block.specs.Reading.{links_in};
ghost use Rattle.xod_block.specs.Records.{FitsPart, FitsOwn, rise};
ghost use Rattle.xod_trie.specs.Branches.{FitsBranch, branch_seen, child_of};
ghost use Rattle.xod_trie_mut.specs.Links.{IsBare, IsCut, IsJoined, HasOne, both_in_one, leaf_of, new_link, relinked, set_link};
ghost use Rattle.xod_trie_mut.specs.Own.{HasParts, are_enough};

use crate::seat::Seat;
use std::alloc::Global;
use std::marker::Model;
use xod_base::{Bytes, Listed, Memory};
use xod_block::{link_at, link_count};
use xod_trie::{BranchRef, copied};

/// The longest key part or value that a record has.
const LONGEST_PART: usize = 65535;

/// The children of a branch in memory, each with its byte, by rising byte.
pub type Seats = Listed<(u8, Seat)>;

/// A leaf or a node in memory, seen as a branch whose parts fit into a record. It may have too few children yet.
#[derive(Debug, Drop)]
pub struct OwnBranch {
    key: Bytes,
    value: Option<Bytes>,
    children: Seats,
}

impl Model for OwnBranch {
    ghost use Rattle.xod_trie.specs.declared.branch.Branch.{Branch};
    ghost use Rattle.xod_trie.specs.contracts.branch.Branch as branch_contracts;
    ghost use Rattle.xod_trie_mut.specs.Own.{HasParts};

    ghost Value = { Branch };

    ghost coded = { (branch_contracts.the_row).coded };

    ghost view = { λ b. record { key = b.key; value = b.value; children = b.children } };

    ghost invariant = { λ b. HasParts (record { key = b.key; value = b.value; children = b.children }) };
}

/// A branch cut in two: the front of its key part alone, the next byte, and what stood behind.
#[derive(Debug, Drop)]
pub struct Halves {
    pub upper: OwnBranch,
    pub byte: u8,
    pub lower: OwnBranch,
}

/// The links in bytes, as children of a branch in memory.
fn seats_of(alloc: Global, links: &[u8]) -> Result<Seats, Memory>
    ensures { IfOk result (λ list. list ≡ links_in links.now) }
{
    let mut list = Seats::new(alloc);
    for index in 0..link_count(links) {
        let (byte, at) = link_at(links, index);
        list.push((byte, Seat::saved(at)))?;
    }
    Ok(list)
}

/// The bytes before a place.
fn front_of(alloc: Global, key: &[u8], count: usize) -> Result<Bytes, Memory>
    requires { count ≤ length key.now }
    ensures { IfOk result (λ front. front ≡ take count key.now) }
{
    let (front, _) = key.split_at(count);
    copied(alloc, front)
}

/// The bytes behind a place.
fn back_of(alloc: Global, key: &[u8], count: usize) -> Result<Bytes, Memory>
    requires { count < length key.now }
    ensures { IfOk result (λ back. back ≡ drop (count + 1) key.now) }
{
    let (_, back) = key.split_at(count + 1);
    copied(alloc, back)
}

/// A front, a byte and a back in one.
fn joined_key(front: Bytes, byte: u8, back: Bytes) -> Result<Bytes, Memory>
    ensures { IfOk result (λ key. key ≡ front ++ byte ∷ back) }
{
    let mut key = front;
    key.push(byte)?;
    key.append(back)?;
    Ok(key)
}

/// How many children stand before a byte.
fn children_before(children: &[(u8, Seat)], byte: u8) -> usize
    ensures within { result ≤ length children.now }
    ensures set { (at : Option Address) → set_link byte at children.now
        ≡ take result children.now ++ set_link byte at (drop result children.now) }
    ensures there { IfSome (slice_get children.now result) (λ child. byte ≤ child.0) }
{
    let mut index = 0;
    'ahead: while index < children.len() && children[index].0 < byte {
        index += 1;
    }
    index
}

/// Children without the one at a place, where it is that of the byte.
fn without(children: Vec<(u8, Seat)>, index: usize, byte: u8) -> Vec<(u8, Seat)>
    requires { IfSome (slice_get children.items index) (λ child. byte ≤ child.0) }
    ensures front { take index result.items ≡ take index children.items }
    ensures behind { (at : Option Address) → set_link byte at (drop index children.items)
        ≡ new_link byte at ++ drop index result.items }
    ensures len { index ≤ length children.items → index ≤ length result.items }
{
    let mut children = children;
    if index >= children.len() {
        return children;
    }
    if children[index].0 != byte {
        return children;
    }
    children.remove(index);
    children
}

/// Children with another one under a byte, or none there.
fn set_link(children: Seats, byte: u8, at: Option<Seat>) -> Result<Seats, Memory>
    ensures { IfOk result (λ list. list ≡ set_link byte at children) }
{
    let items = children.into_vec();
    let index = children_before(items.as_slice(), byte);
    let mut items = without(items, index, byte);
    match at {
        None => Ok(Listed::from_vec(items)),
        Some(at) => {
            if items.insert(index, (byte, at)).is_err() {
                return Err(Memory);
            }
            Ok(Listed::from_vec(items))
        }
    }
}

impl OwnBranch {
    /// The branch that was read.
    pub fn of(alloc: Global, branch: BranchRef<'_>) -> Result<OwnBranch, Memory>
        requires { FitsBranch (branch_seen branch) }
        ensures { IfOk result (λ copy. copy ≡ branch_seen branch.entry) }
    {
        let key = copied(alloc, branch.key)?;
        let value = match branch.value {
            None => None,
            Some(bytes) => Some(copied(alloc, bytes)?),
        };
        let children = seats_of(alloc, branch.links)?;
        Ok(OwnBranch {
            key,
            value,
            children,
        })
    }

    /// The branch of one key.
    pub fn leaf(alloc: Global, key: &[u8], value: &[u8]) -> Result<OwnBranch, Memory>
        requires key { FitsPart key.now }
        requires value { FitsPart value.now }
        ensures { IfOk result (λ leaf. leaf ≡ leaf_of key.now value.now) }
    {
        let key = copied(alloc, key)?;
        let value = copied(alloc, value)?;
        Ok(OwnBranch {
            key,
            value: Some(value),
            children: Seats::new(alloc),
        })
    }

    /// The branch of no key.
    pub fn bare(alloc: Global) -> OwnBranch
        ensures { result ≡ record { key = []; value = None; children = [] } }
    {
        OwnBranch {
            key: Bytes::new(alloc),
            value: None,
            children: Seats::new(alloc),
        }
    }

    /// The key part.
    pub fn key(&self) -> &[u8]
        ensures exactly { result.now ≡ self.now.key }
        ensures fits { length result.now < 2 ^ 16 }
    {
        self.key.as_slice()
    }

    /// The value, where there is one.
    pub fn value(&self) -> Option<&[u8]>
        ensures exactly { option_copied result ≡ self.now.value }
        ensures fits { FitsOwn (option_copied result) }
    {
        match &self.value {
            None => None,
            Some(value) => Some(value.as_slice()),
        }
    }

    /// The children.
    pub fn children(&self) -> &[(u8, Seat)]
        ensures exactly { result.now ≡ self.now.children }
        ensures parts { HasParts self.now }
    {
        self.children.as_slice()
    }

    /// The child under a byte.
    pub fn child_under(&self, byte: u8) -> Option<Seat>
        ensures { result ≡ child_of byte self.now.children }
    {
        for (b, at) in self.children.as_slice() {
            if *b == byte {
                return Some(*at);
            }
        }
        None
    }

    /// Whether it has this value.
    pub fn has_value(&self, value: &[u8]) -> bool
        ensures { IsTrue result ↔ (self.now.value ≡ Some value.now) }
    {
        match &self.value {
            None => false,
            Some(own) => own.as_slice() == value,
        }
    }

    /// Whether it has neither a value nor a child.
    pub fn is_bare(&self) -> bool
        ensures { IsTrue result ↔ IsBare self.now }
    {
        self.value.is_none() && self.children.is_empty()
    }

    /// The one child of a branch without a value, where it has just one.
    pub fn only_child(&self) -> Option<(u8, Seat)>
        ensures one { IfSome result (λ child. HasOne self.now child) }
        ensures none { IfNone result (IsBare self.now
            ⊎ IsTrue (are_enough self.now.value (length self.now.children))) }
    {
        if self.value.is_some() {
            return None;
        }
        let [child] = self.children.as_slice() else {
            return None;
        };
        Some(*child)
    }

    /// The same branch once more.
    pub fn try_copy(&self, alloc: Global) -> Result<OwnBranch, Memory>
        ensures { IfOk result (λ copy. copy ≡ self.now) }
    {
        let key = self.key.try_clone(alloc)?;
        let value = match &self.value {
            None => None,
            Some(bytes) => Some(bytes.try_clone(alloc)?),
        };
        let children = self.children.try_clone(alloc)?;
        Ok(OwnBranch {
            key,
            value,
            children,
        })
    }

    /// A branch with other children, which have the same bytes.
    pub fn with_children(self, children: Seats) -> OwnBranch
        requires { map (λ child. child.0) children ≡ map (λ child. child.0) self.children }
        ensures { result ≡ record self { children = children } }
    {
        OwnBranch {
            key: self.key,
            value: self.value,
            children,
        }
    }

    /// A branch with another value.
    pub fn with_value(self, value: Bytes) -> OwnBranch
        requires { FitsPart value }
        ensures { result ≡ record self { value = Some value } }
    {
        OwnBranch {
            key: self.key,
            value: Some(value),
            children: self.children,
        }
    }

    /// A branch without its value.
    pub fn without_value(self) -> OwnBranch
        ensures { result ≡ record self { value = None } }
    {
        OwnBranch {
            key: self.key,
            value: None,
            children: self.children,
        }
    }

    /// A branch with another child under a byte, or none there.
    pub fn relinked(self, byte: u8, at: Option<Seat>) -> Result<OwnBranch, Memory>
        ensures linked { IfOk result (λ made. made ≡ relinked self byte at) }
        ensures rising { IsTrue (rise self.children) }
    {
        let OwnBranch {
            key,
            value,
            children,
        } = self;
        let children = set_link(children, byte, at)?;
        Ok(OwnBranch {
            key,
            value,
            children,
        })
    }

    /// A branch and the one child that it has under a byte, in one. None where their key part would be too long.
    pub fn joined(self, byte: u8, child: OwnBranch) -> Result<Option<OwnBranch>, Memory>
        ensures { IfOk result (IsJoined self.key byte child) }
    {
        if LONGEST_PART - self.key.len() <= child.key.len() {
            return Ok(None);
        }
        let key = joined_key(self.key, byte, child.key)?;
        Ok(Some(OwnBranch {
            key,
            value: child.value,
            children: child.children,
        }))
    }

    /// A branch cut at a place of its key part.
    pub fn cut(self, alloc: Global, count: usize) -> Result<Halves, Memory>
        requires { count < length self.key }
        ensures { IfOk result (IsCut self count) }
    {
        let byte = self.key.as_slice()[count];
        let front = front_of(alloc, self.key.as_slice(), count)?;
        let back = back_of(alloc, self.key.as_slice(), count)?;
        Ok(Halves {
            upper: OwnBranch {
                key: front,
                value: None,
                children: Seats::new(alloc),
            },
            byte,
            lower: OwnBranch {
                key: back,
                value: self.value,
                children: self.children,
            },
        })
    }
}
