//! The roots of a store's trees by their numbers.
//!
//! They stand in an array by rising number, so nothing here takes memory.
ghost use Rattle.std.specs.Prelude.{◌≡◌, ◌<◌, ◌≤◌, ◌+◌, ◌++◌, length, take, drop, slice_get, Some, IsTrue};
ghost use Rattle.std.specs.FinMap.{empty, entries, find, from_entries, get, len};
ghost use Rattle.std.specs.Ordering.{nat_cmp};
ghost use Rattle.xod_block.specs.Reading.{links_in};
ghost use Rattle.xod_block.specs.Records.{rise};
ghost use Rattle.xod_root.specs.Places.{link_of, place_below};
ghost use Rattle.xod_root.specs.Roots.{with_root};

use std::marker::Model;
use xod_block::{Address, link_at, link_count};

/// How many trees a root record lists at most.
pub const MOST_TREES: usize = 32;

/// What stands in the places of the array that no tree takes.
const NOWHERE: (u8, Address) = (0, Address { file: 0, at: 0 });

/// Where the roots of trees begin. It takes no memory.
#[derive(Debug, Drop)]
pub struct RootList {
    links: [(u8, Address); MOST_TREES],
    count: usize,
}

impl Model for RootList {
    ghost use Rattle.std.specs.Prelude.{take};
    ghost use Rattle.std.specs.Coded.{coded_ℕ};
    ghost use Rattle.std.specs.FinMap.{code, from_sorted};
    ghost use Rattle.xod_root.specs.Roots.{Roots, address_code, IsListed};

    ghost Value = { Roots };

    ghost coded = { code coded_ℕ address_code };

    ghost view = { λ roots. from_sorted (take roots.count roots.links) };

    ghost invariant = { λ roots. IsListed roots.count roots.links };
}

/// How many links come before those that have this number or a greater one.
fn place_of(links: &[(u8, Address)], number: u16) -> usize
    ensures place { result ≡ place_below number links.now }
    ensures bound { result ≤ length links.now }
{
    for (index, link) in links.iter().enumerate() {
        if u16::from(link.0) >= number {
            return index;
        }
    }
    links.len()
}

/// The place of a number among links, and the links behind it. One that has this number is none of those.
fn around(links: &[(u8, Address)], number: u8) -> (usize, &[(u8, Address)])
    ensures place { result.0 ≡ place_below number links.now }
    ensures bound { result.0 ≤ length links.now }
    ensures behind { result.1.now ≡ drop (place_below (number + 1) links.now) links.now }
{
    let place = place_of(links, u16::from(number));
    let (_, behind) = links.split_at(place_of(links, u16::from(number) + 1));
    (place, behind)
}

/// The address of a link that has this number.
fn address_in(links: &[(u8, Address)], number: u8) -> Option<Address>
    ensures { result ≡ find nat_cmp number links.now }
{
    for link in links {
        if link.0 == number {
            return Some(link.1);
        }
    }
    None
}

/// Puts links into an array from a place on, and answers the place behind them.
fn put(links: &mut [(u8, Address); MOST_TREES], place: usize, more: &[(u8, Address)]) -> usize
    requires { place + length more.now ≤ MOST_TREES }
    ensures end { result ≡ place + length more.now }
    ensures exactly { take result links.new ≡ take place links.old ++ more.now }
{
    let end = place + more.len();
    links[place..end].copy_from_slice(more);
    end
}

/// Puts the link of a tree into an array, where it has a root, and links behind it. It answers the place behind those.
fn splice(
    links: &mut [(u8, Address); MOST_TREES],
    place: usize,
    tree: (u8, Option<Address>),
    behind: &[(u8, Address)],
) -> usize
    requires { place + length (link_of tree ++ behind.now) ≤ MOST_TREES }
    ensures exactly { take result links.new ≡ take place links.old ++ (link_of tree ++ behind.now) }
    ensures end { result ≡ place + length (link_of tree ++ behind.now) }
{
    match tree.1 {
        None => put(links, place, behind),
        Some(root) => {
            let after = put(links, place, &[(tree.0, root)]);
            put(links, after, behind)
        }
    }
}

impl RootList {
    /// No tree.
    pub fn new() -> Self
        ensures { result ≡ empty }
    {
        RootList {
            links: [NOWHERE; MOST_TREES],
            count: 0,
        }
    }

    /// The roots in the links of a root record.
    pub(crate) fn from_links(links: &[u8]) -> Self
        requires few { length (links_in links.now) ≤ MOST_TREES }
        requires rising { IsTrue (rise (links_in links.now)) }
        ensures { result ≡ from_entries (links_in links.now) }
    {
        let mut roots = [NOWHERE; MOST_TREES];
        let count = link_count(links);
        for index in 0..count {
            roots[index] = link_at(links, index);
        }
        RootList {
            links: roots,
            count,
        }
    }

    /// The trees and their roots, by rising number.
    pub fn as_slice(&self) -> &[(u8, Address)]
        ensures exactly { result.now ≡ entries self.now }
        ensures few { length result.now ≤ MOST_TREES }
    {
        let (links, _) = self.links.split_at(self.count);
        links
    }

    /// The same roots once more.
    pub fn copied(&self) -> Self
        ensures { result ≡ self.now }
    {
        RootList {
            links: self.links,
            count: self.count,
        }
    }

    /// How many trees are listed.
    pub fn len(&self) -> usize
        ensures exactly { result ≡ len self.now }
        ensures within { result ≤ MOST_TREES }
    {
        self.as_slice().len()
    }

    /// The tree at a place, counted from 0 by rising number, and its root.
    pub fn at(&self, index: usize) -> (u8, Address)
        requires { index < len self.now }
        ensures { slice_get (entries self.now) index ≡ Some result }
    {
        let links = self.as_slice();
        links[index]
    }

    /// The root of a tree, and `None` exactly where the tree is not listed.
    pub fn get(&self, tree: u8) -> Option<Address>
        ensures { result ≡ get self.now tree }
    {
        address_in(self.as_slice(), tree)
    }

    /// Lists this root of a tree in place of the one before. Without one the tree is no longer listed.
    pub fn set(&mut self, tree: u8, root: Option<Address>)
        requires { len (with_root self.old tree root) ≤ MOST_TREES }
        ensures { self.new ≡ with_root self.old tree root }
    {
        let before = self.copied();
        let (place, behind) = around(before.as_slice(), tree);
        self.count = splice(&mut self.links, place, (tree, root), behind);
    }
}
