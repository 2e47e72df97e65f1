//! A trie of 70,000 levels, which is deeper than any key of a record's part is long.
use std::alloc::Global;
use std::test::Fail;
use xod_base::{Bytes, Memory};
use xod_block::{Address, Body, BodyFetch, encode_link};
use xod_cursor::Cursor;
use xod_trie::find;

const LEVELS: u64 = 70_000;

/// How many bytes a level takes: no key part, a value of one byte, and one child.
const LEVEL: u64 = 22;

/// The bytes of a leaf without a key part, and of levels one above another under the byte of `x`. Each level and the leaf
/// have a value.
fn deep(alloc: Global) -> Result<Bytes, Memory> {
    let mut body = Bytes::new(alloc);
    body.extend(&[1, 0, 0, 0, 1, b'v'])?;
    let mut below = 0u64;
    for level in 0..LEVELS {
        body.extend(&[2, 0, 0, 1, 0, 1, b'v', 0, 1])?;
        body.extend(&encode_link(b'x', Address { file: 0, at: below }))?;
        below = 6 + level * LEVEL;
    }
    Ok(body)
}

#[test]
fn seventy_thousand_levels_are_read_like_few(rt: HostRuntime) -> Result<(), Fail> {
    let alloc = rt.alloc();
    let body = deep(alloc)?;
    let bodies = [Body {
        file: 0,
        bytes: body.as_slice(),
    }];
    let fetch = &mut BodyFetch { bodies: &bodies };
    let root = Some(Address {
        file: 0,
        at: 6 + (LEVELS - 1) * LEVEL,
    });
    let key = vec![in alloc; b'x'; 70_000]?;
    assert!(rt; find(alloc, fetch, root, &key)?.is_some());
    let mut cursor = Cursor::start_from(fetch, alloc, root, &key, false)?;
    assert!(rt; cursor.step(fetch, alloc)?.is_some());
    assert!(rt; cursor.step(fetch, alloc)?.is_none());
    Ok(())
}
