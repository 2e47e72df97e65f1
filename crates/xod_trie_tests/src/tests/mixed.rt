//! Keys that share long parts come and go, and a `BTreeMap` with them.
use super::store::Saved;
use std::alloc::Global;
use std::collections::BTreeMap;
use std::test::Fail;
use xod_base::ReadError;
use xod_block::{Body, BodyFetch};
use xod_cursor::{Cursor, next, seek};
use xod_trie::find;

/// Keys with their values.
type Map = BTreeMap<Vec<u8>, [u8; 1]>;

/// The key of a number: at most seven letters a and b, behind a front that all keys share.
fn key_of(alloc: Global, number: u64) -> Result<Vec<u8>, Fail> {
    let mut key = b"shared ".to_vec(alloc)?;
    let mut rest = number / 8;
    for _ in 0..number % 8 {
        key.push(if rest % 2 == 0 { b'a' } else { b'b' })?;
        rest /= 2;
    }
    Ok(key)
}

/// How many keys of a map are told otherwise by the saved trie: by a look-up, by the order, or by a walk.
fn told_otherwise(alloc: Global, saved: &Saved, map: &Map) -> Result<usize, ReadError> {
    let bodies = [Body {
        file: 0,
        bytes: saved.body.as_slice(),
    }];
    let fetch = &mut BodyFetch { bodies: &bodies };
    let mut cursor = Cursor::start(fetch, alloc, saved.root)?;
    let mut wrong = 0usize;
    let mut last: &[u8] = &[];
    for (key, value) in map {
        let found = find(alloc, fetch, saved.root, key)?;
        let sought = seek(fetch, alloc, saved.root, key)?;
        let walked = cursor.step(fetch, alloc)?;
        let after = next(fetch, alloc, saved.root, last)?;
        let is_right = found.is_some_and(|bytes| bytes.as_slice() == value.as_slice())
            && sought.is_some_and(|pair| pair.key.as_slice() == key.as_slice())
            && after.is_some_and(|pair| pair.key.as_slice() == key.as_slice())
            && walked.is_some_and(|pair| pair.value.as_slice() == value.as_slice());
        if !is_right {
            wrong = wrong.saturating_add(1);
        }
        last = key;
    }
    if cursor.step(fetch, alloc)?.is_some() || next(fetch, alloc, saved.root, last)?.is_some() {
        wrong = wrong.saturating_add(1);
    }
    Ok(wrong)
}

#[test]
fn sixty_changes_of_keys_that_share_parts(rt: HostRuntime) -> Result<(), Fail> {
    let alloc = rt.alloc();
    let mut saved = Saved::new(alloc);
    let mut map: Map = BTreeMap::new(alloc);
    let mut seed = 1u64;
    for step in 0..60u8 {
        seed = seed
            .wrapping_mul(6_364_136_223_846_793_005)
            .wrapping_add(1_442_695_040_888_963_407);
        let key = key_of(alloc, (seed / (1 << 40)) % 1024)?;
        if step % 3 == 2 {
            saved.set(alloc, &key, None)?;
            map.remove(&key);
        } else {
            saved.set(alloc, &key, Some(&[step]))?;
            map.insert(key, [step])?;
        }
        assert_eq!(rt;
            told_otherwise(alloc, &saved, &map)?,
            0,
            "after step {step}"
        );
    }
    Ok(())
}
