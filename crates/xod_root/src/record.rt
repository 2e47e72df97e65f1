//! Root records to roots, and back.
ghost use Rattle.std.specs.Prelude.{◌≡◌, ◌++◌, IfOk, OnOk, OnErr};
ghost use Rattle.std.specs.List.{AllByRecursion};
ghost use Rattle.xod_block.specs.Records.{Fits, FitsLink, link_bytes, links_bytes, spelling};
ghost use Rattle.xod_block.specs.Seen.{seen, HasSpelling};
ghost use Rattle.xod_root.specs.Roots.{root_in, root_record};

use crate::roots::RootList;
use std::alloc::{AllocError, Global};
use xod_base::{Bytes, Memory};
use xod_block::{Address, LogRecord, encode_link, encode_record};

/// The bytes of a link.
fn link_bytes(link: (u8, Address)) -> [u8; 13]
    ensures spelled { result ≡ link_bytes link }
    ensures fits { FitsLink link }
{
    encode_link(link.0, link.1)
}

/// The bytes of links.
fn spelled(alloc: Global, links: &[(u8, Address)]) -> Result<Vec<u8>, AllocError>
    ensures spelled { IfOk result (λ bytes. bytes.items ≡ links_bytes links.now) }
    ensures fits { OnOk result (AllByRecursion FitsLink links.now) }
{
    let mut bytes = Vec::new(alloc);
    for link in links {
        bytes.extend_from_slice(&link_bytes(*link))?;
    }
    Ok(bytes)
}

/// Puts the root record of a commit that lists these roots at the end. A refusal leaves the bytes as they were.
pub fn encode_root(
    out: &mut Bytes,
    alloc: Global,
    commit: u64,
    roots: &RootList,
) -> Result<(), Memory>
    ensures ok { OnOk result (out.new ≡ out.old ++ spelling (root_record commit roots.now)) }
    ensures fits { OnOk result (Fits (root_record commit roots.now)) }
    ensures err { OnErr result (out.new ≡ out.old) }
{
    let trees = spelled(alloc, roots.as_slice())?;
    let item = LogRecord::Root {
        commit,
        trees: trees.as_slice(),
    };
    encode_record(alloc, out, &item)?;
    Ok(())
}

/// The commit of a root record and the roots that it lists. `None` exactly where the record is a leaf or a node.
pub fn read_root(item: &LogRecord<'_>) -> Option<(u64, RootList)>
    requires { HasSpelling item.now }
    ensures { result ≡ root_in (seen item.now) }
{
    match *item {
        LogRecord::Root { commit, trees } => Some((commit, RootList::from_links(trees))),
        _ => None,
    }
}
