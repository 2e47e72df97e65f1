//! Links: the byte of a child or the number of a tree, and the address of its record.
ghost use Rattle.std.specs.Prelude.{◌≡◌, ◌<◌, ◌≤◌, ◌*◌, ◌^◌, length, slice_get, Some};
ghost use Rattle.xod_block.specs.Records.{link_bytes, children_of};
ghost use Rattle.xod_block.specs.Reading.{address_of, link_of, links_in};
ghost use Rattle.xod_block.specs.Seen.{seen};

use crate::address::Address;
use crate::log_record::LogRecord;
use crate::number::{first_u32, first_u64, u32_bytes, u64_bytes};

/// The bytes of a link, of which the children of a node and the trees of a root are made.
pub fn encode_link(number: u8, at: Address) -> [u8; 13]
    ensures { result ≡ link_bytes (number, at) }
{
    let file = u32_bytes(at.file);
    let place = u64_bytes(at.at);
    [
        number, file[0], file[1], file[2], file[3], place[0], place[1], place[2], place[3],
        place[4], place[5], place[6], place[7],
    ]
}

fn first_address(bytes: &[u8]) -> Address
    requires { 12 ≤ length bytes.now }
    ensures { result ≡ address_of bytes.now }
{
    let (_, behind_file) = bytes.split_at(4);
    Address {
        file: first_u32(bytes),
        at: first_u64(behind_file),
    }
}

fn first_link(bytes: &[u8]) -> (u8, Address)
    requires { 13 ≤ length bytes.now }
    ensures { result ≡ link_of bytes.now }
{
    let (_, behind_number) = bytes.split_at(1);
    (bytes[0], first_address(behind_number))
}

/// How many links bytes are.
pub fn link_count(links: &[u8]) -> usize
    ensures count { result ≡ length (links_in links.now) }
    ensures within { 13 * result ≤ length links.now }
    ensures small { 13 * result < 2 ^ 64 }
{
    links.len() / 13
}

/// The link at a place among links, counted from 0.
pub fn link_at(links: &[u8], index: usize) -> (u8, Address)
    requires { index < length (links_in links.now) }
    ensures { slice_get (links_in links.now) index ≡ Some result }
{
    let count = link_count(links);
    prove!(index < count);
    let (_, here) = links.split_at(13 * index);
    first_link(here)
}

/// A child of a node: its byte and its address. Children are counted from 0, by rising byte.
pub fn child_at(node: &LogRecord<'_>, index: usize) -> (u8, Address)
    requires { index < length (children_of (seen node.now)) }
    ensures { slice_get (children_of (seen node.now)) index ≡ Some result }
{
    match *node {
        LogRecord::Node { children, .. } => link_at(children, index),
        _ => unreachable!(),
    }
}
