//! A trie over records of which each read fails in turn.
use super::store::{Saved, Untold};
use std::test::Fail;
use xod_base::{Bytes, ReadError};
use xod_block::Address;
use xod_trie_mut::MutTrie;

/// Keys in several levels.
const KEYS: [&[u8]; 6] = [b"", b"a", b"ab", b"abc", b"abd", b"b"];

#[test]
fn a_read_that_fails_leaves_the_trie_as_it_was(rt: HostRuntime) -> Result<(), Fail> {
    let alloc = rt.alloc();
    let mut saved = Saved::new(alloc);
    for key in KEYS {
        saved.set(alloc, key, Some(key))?;
    }
    let bytes = saved.body.as_slice();
    let mut failed = 0u64;
    for fails in 1..9u64 {
        let mut fetch = Untold::over(bytes, fails);
        let mut trie = MutTrie::over(alloc, saved.root);
        let first = trie.remove(&mut fetch, alloc, b"abd");
        if first == Err(ReadError::Device) {
            failed = failed.saturating_add(1);
            assert_eq!(rt; fetch.faults, 1);
            assert_eq!(rt; trie.remove(&mut fetch, alloc, b"abd"), Ok(true));
        }
        assert_eq!(rt; trie.remove(&mut fetch, alloc, b"abd"), Ok(false));
    }
    assert_eq!(rt; failed, 4);
    Ok(())
}
