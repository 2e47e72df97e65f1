//! Records to bytes.
//!
//! Each writer puts its part at the end. What a refusal leaves behind there is cut off again before it is answered.
ghost use Rattle.std.specs.Prelude.{◌≡◌, ◌<◌, ◌≤◌, ◌^◌, ◌++◌, ◌∷◌, length, take, OnOk, OnErr};
ghost use Rattle.std.specs.Option.{option_copied};
ghost use Rattle.std.specs.Int.{w16, w64, to_be_bytes};
ghost use Rattle.xod_block.specs.Records.{Leaf, Node, Root, FitsPart, FitsOwn, FitsLeaf, FitsNode, FitsRoot, spelling, part_bytes, own_bytes, links_bytes};
ghost use Rattle.xod_block.specs.Reading.{links_in};
ghost use Rattle.xod_block.specs.Seen.{seen, AreLinks, HasSpelling};

use crate::link::link_count;
use crate::log_record::LogRecord;
use crate::number::{u16_bytes, u64_bytes};
use std::alloc::Global;
use std::mem;
use xod_base::{Bytes, Memory};

fn put(out: &mut Vec<u8>, more: &[u8]) -> Result<(), Memory>
    ensures ok { OnOk result (out.new.items ≡ out.old.items ++ more.now) }
    ensures kept { take (length out.old.items) out.new.items ≡ out.old.items }
{
    out.extend_from_slice(more)?;
    Ok(())
}

fn put_part(out: &mut Vec<u8>, part: &[u8]) -> Result<(), Memory>
    requires { FitsPart part.now }
    ensures ok { OnOk result (out.new.items ≡ out.old.items ++ part_bytes part.now) }
    ensures kept { take (length out.old.items) out.new.items ≡ out.old.items }
{
    put(out, &u16_bytes(part.len() as u16))?;
    put(out, part)?;
    Ok(())
}

fn put_own(out: &mut Vec<u8>, value: Option<&[u8]>) -> Result<(), Memory>
    requires { FitsOwn (option_copied value) }
    ensures ok { OnOk result (out.new.items
        ≡ out.old.items ++ own_bytes (option_copied value.entry)) }
    ensures kept { take (length out.old.items) out.new.items ≡ out.old.items }
{
    match value {
        None => {
            put(out, &[0])?;
            Ok(())
        }
        Some(value) => {
            put(out, &[1])?;
            put_part(out, value)?;
            Ok(())
        }
    }
}

fn put_leaf(out: &mut Vec<u8>, key: &[u8], value: &[u8]) -> Result<(), Memory>
    requires { FitsLeaf key.now value.now }
    ensures ok { OnOk result (out.new.items ≡ out.old.items ++ spelling (Leaf key.now value.now)) }
    ensures kept { take (length out.old.items) out.new.items ≡ out.old.items }
{
    put(out, &[1])?;
    put_part(out, key)?;
    put_part(out, value)?;
    Ok(())
}

fn put_children(out: &mut Vec<u8>, children: &[u8]) -> Result<(), Memory>
    requires whole { AreLinks children.now }
    requires few { length (links_in children.now) ≤ 256 }
    ensures ok { OnOk result (out.new.items
        ≡ out.old.items ++ to_be_bytes w16 (length (links_in children.now)) ++ links_bytes (links_in children.now)) }
    ensures kept { take (length out.old.items) out.new.items ≡ out.old.items }
{
    put(out, &u16_bytes(link_count(children) as u16))?;
    put(out, children)?;
    Ok(())
}

fn put_node(
    out: &mut Vec<u8>,
    key: &[u8],
    value: Option<&[u8]>,
    children: &[u8],
) -> Result<(), Memory>
    requires whole { AreLinks children.now }
    requires fits { FitsNode key.now (option_copied value) (links_in children.now) }
    ensures ok { OnOk result (out.new.items
        ≡ out.old.items ++ spelling (Node key.now (option_copied value.entry) (links_in children.now))) }
    ensures kept { take (length out.old.items) out.new.items ≡ out.old.items }
{
    put(out, &[2])?;
    put_part(out, key)?;
    put_own(out, value)?;
    put_children(out, children)?;
    Ok(())
}

fn put_trees(out: &mut Vec<u8>, trees: &[u8]) -> Result<(), Memory>
    requires whole { AreLinks trees.now }
    requires few { length (links_in trees.now) ≤ 32 }
    ensures ok { OnOk result (out.new.items
        ≡ out.old.items ++ length (links_in trees.now) ∷ links_bytes (links_in trees.now)) }
    ensures kept { take (length out.old.items) out.new.items ≡ out.old.items }
{
    put(out, &[link_count(trees) as u8])?;
    put(out, trees)?;
    Ok(())
}

fn put_root(out: &mut Vec<u8>, commit: u64, trees: &[u8]) -> Result<(), Memory>
    requires whole { AreLinks trees.now }
    requires fits { FitsRoot commit (links_in trees.now) }
    ensures ok { OnOk result (out.new.items
        ≡ out.old.items ++ spelling (Root commit (links_in trees.now))) }
    ensures kept { take (length out.old.items) out.new.items ≡ out.old.items }
{
    put(out, &[3, 1])?;
    put(out, &u64_bytes(commit))?;
    put_trees(out, trees)?;
    Ok(())
}

fn put_record(out: &mut Vec<u8>, item: &LogRecord<'_>) -> Result<(), Memory>
    requires { HasSpelling item.now }
    ensures ok { OnOk result (out.new.items ≡ out.old.items ++ spelling (seen item.now)) }
    ensures kept { take (length out.old.items) out.new.items ≡ out.old.items }
{
    match *item {
        LogRecord::Leaf { key, value } => put_leaf(out, key, value),
        LogRecord::Node {
            key,
            value,
            children,
        } => put_node(out, key, value, children),
        LogRecord::Root { commit, trees } => put_root(out, commit, trees),
    }
}

/// Puts the one spelling of a record at the end. A refusal leaves the bytes as they were.
pub fn encode_record(alloc: Global, out: &mut Bytes, item: &LogRecord<'_>) -> Result<(), Memory>
    requires { HasSpelling item.now }
    ensures ok { OnOk result (out.new ≡ out.old ++ spelling (seen item.now)) }
    ensures err { OnErr result (out.new ≡ out.old) }
{
    let mut bytes = mem::replace(out, Bytes::new(alloc)).into_vec();
    let length = bytes.len();
    let written = put_record(&mut bytes, item);
    if written.is_err() {
        bytes.truncate(length);
    }
    *out = Bytes::from_vec(bytes);
    written
}
