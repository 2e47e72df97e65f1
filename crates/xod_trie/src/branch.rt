//! Leaves and nodes in memory, which are one kind of thing to all that goes through a trie.
//!
//! A branch is read off the bytes of its record without a copy, by `branch_in` alone, and copied where it must outlive
//! them.
ghost use Rattle.std.specs.Prelude.{◌≡◌, Some, IfOk, IfSome};
ghost use Rattle.std.specs.Option.{option_map, option_copied};
ghost use Rattle.xod_block.specs.Reading.{links_in, record_in};
ghost use Rattle.xod_block.specs.Seen.{seen, HasSpelling};
ghost use Rattle.xod_trie.specs.Branches.{FitsBranch, branch_of, branch_seen};

use std::alloc::Global;
use xod_base::{Bytes, Listed, Memory};
use xod_block::{Address, LogRecord, decode_record, link_at, link_count};

/// The children of a node, each with its byte, by rising byte.
pub type Links = Listed<(u8, Address)>;

/// A leaf or a node: its key part, its value if it has one, and its children. A leaf has no child.
#[derive(Debug, Drop)]
pub struct Branch {
    pub key: Bytes,
    pub value: Option<Bytes>,
    pub children: Links,
}

/// A branch in the bytes that it was read from. Its links are those of `xod_block`, 13 bytes each.
#[derive(Clone, Copy, Debug)]
pub struct BranchRef<'a> {
    pub key: &'a [u8],
    pub value: Option<&'a [u8]>,
    pub links: &'a [u8],
}

/// A record as a branch. A root is none.
fn as_branch(item: LogRecord<'_>) -> Option<BranchRef<'_>>
    ensures exactly { option_map branch_seen result ≡ branch_of (Some (seen item.entry)) }
    ensures fits { HasSpelling item.entry → IfSome result (λ branch.
        FitsBranch (branch_seen branch)) }
{
    match item {
        LogRecord::Leaf { key, value } => Some(BranchRef {
            key,
            value: Some(value),
            links: &[],
        }),
        LogRecord::Node {
            key,
            value,
            children,
        } => Some(BranchRef {
            key,
            value,
            links: children,
        }),
        LogRecord::Root { .. } => None,
    }
}

/// The leaf or node that bytes begin with, and `None` exactly where they begin with none.
pub fn branch_in(bytes: &[u8]) -> Option<BranchRef<'_>>
    ensures exactly { option_map branch_seen result ≡ branch_of (record_in bytes.now) }
    ensures fits { IfSome result (λ branch. FitsBranch (branch_seen branch)) }
{
    let (item, _) = decode_record(bytes)?;
    as_branch(item)
}

/// A list of the same bytes.
pub fn copied(alloc: Global, bytes: &[u8]) -> Result<Bytes, Memory>
    ensures { IfOk result (λ list. list ≡ bytes.now) }
{
    let mut list = Bytes::new(alloc);
    list.extend(bytes)?;
    Ok(list)
}

/// A list of the same bytes, where there are any.
pub fn copied_value(alloc: Global, value: Option<&[u8]>) -> Result<Option<Bytes>, Memory>
    ensures { IfOk result (λ list. list ≡ option_copied value.entry) }
{
    match value {
        None => Ok(None),
        Some(bytes) => {
            let list = copied(alloc, bytes)?;
            Ok(Some(list))
        }
    }
}

/// The links that bytes are.
fn links_of(alloc: Global, bytes: &[u8]) -> Result<Links, Memory>
    ensures { IfOk result (λ list. list ≡ links_in bytes.now) }
{
    let mut list = Links::new(alloc);
    for index in 0..link_count(bytes) {
        list.push(link_at(bytes, index))?;
    }
    Ok(list)
}

/// A copy of a branch that outlives the bytes it was read from.
pub fn copied_branch(alloc: Global, branch: BranchRef<'_>) -> Result<Branch, Memory>
    ensures { IfOk result (λ copy. copy ≡ branch_seen branch.entry) }
{
    let key = copied(alloc, branch.key)?;
    let value = copied_value(alloc, branch.value)?;
    let children = links_of(alloc, branch.links)?;
    Ok(Branch {
        key,
        value,
        children,
    })
}
