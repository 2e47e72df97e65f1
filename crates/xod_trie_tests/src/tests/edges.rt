//! The longest key, the widest node, and a trie that is deeper than any key is long.
use super::store::Saved;
use std::alloc::Global;
use std::test::Fail;
use xod_base::Bytes;
use xod_block::{Address, Body, BodyFetch, LogRecord, decode_record, link_count};
use xod_cursor::{Cursor, seek};
use xod_trie::find;

#[test]
fn the_longest_key_stands_beside_the_empty_one(rt: HostRuntime) -> Result<(), Fail> {
    let alloc = rt.alloc();
    let long = vec![in alloc; b'x'; 65535]?;
    let mut saved = Saved::new(alloc);
    saved.set(alloc, &long, Some(b"long"))?;
    saved.set(alloc, b"", Some(b"empty"))?;
    let bodies = [Body {
        file: 0,
        bytes: saved.body.as_slice(),
    }];
    let fetch = &mut BodyFetch { bodies: &bodies };
    let found = find(alloc, fetch, saved.root, &long)?.ok_or("no long key")?;
    assert!(rt; found.as_slice() == b"long".as_slice());
    let first = seek(fetch, alloc, saved.root, b"")?.ok_or("no key")?;
    assert!(rt; first.key.is_empty());
    saved.set(alloc, b"", None)?;
    let root = saved.root.ok_or("no root")?;
    let leaf = 1 + 2 + 65535 + 2 + 4;
    assert_eq!(rt; root.at.saturating_add(leaf), saved.body.len() as u64);
    Ok(())
}

#[test]
fn a_node_has_256_children(rt: HostRuntime) -> Result<(), Fail> {
    let alloc = rt.alloc();
    let mut saved = Saved::new(alloc);
    for byte in 0..=255u8 {
        saved.set(alloc, &[byte], Some(&[byte]))?;
    }
    let root = saved.root.ok_or("no root")?;
    let (_, node) = saved
        .body
        .as_slice()
        .split_at_checked(root.at as usize)
        .ok_or("no node")?;
    let (node, _) = decode_record(node).ok_or("no record")?;
    let LogRecord::Node { children, .. } = node else {
        return Err(Fail::from("no node"));
    };
    assert_eq!(rt; link_count(children), 256);
    Ok(())
}
