//! The worked tries of two keys, `a` and `ab`, byte for byte.
use super::store::Saved;
use std::alloc::Global;
use std::test::Fail;
use xod_block::Address;
use xod_trie_mut::Change;

/// `a` is to have the value `1`, and `ab` the value `2`.
const A: Change<'static> = Change {
    key: b"a",
    value: Some(b"1"),
};

const AB: Change<'static> = Change {
    key: b"ab",
    value: Some(b"2"),
};

/// They are to go.
const NO_A: Change<'static> = Change {
    key: b"a",
    value: None,
};

const NO_AB: Change<'static> = Change {
    key: b"ab",
    value: None,
};

/// The leaf behind the byte of `b`, and the node of `a` at place 6.
const BOTH: [u8; 29] = [
    1, 0, 0, 0, 1, 0x32, //
    2, 0, 1, 0x61, 1, 0, 1, 0x31, 0, 1, 0x62, 0, 0, 0, 0, 0, 0, 0, 0, 0, 0, 0, 0,
];

/// The trie of both keys with these changes besides, before it is saved.
fn both(alloc: Global) -> Result<Saved, Fail> {
    let mut saved = Saved::new(alloc);
    saved.change(alloc, &[A, AB])?;
    Ok(saved)
}

#[test]
fn two_keys_take_29_bytes(rt: HostRuntime) -> Result<(), Fail> {
    let saved = both(rt.alloc())?;
    assert_eq!(rt; saved.root, Some(Address { file: 0, at: 6 }));
    assert!(rt; saved.body.as_slice() == BOTH.as_slice());
    Ok(())
}

#[test]
fn one_key_is_a_leaf_and_none_is_nothing(rt: HostRuntime) -> Result<(), Fail> {
    let alloc = rt.alloc();
    let start = Some(Address { file: 0, at: 0 });
    let mut one = Saved::new(alloc);
    one.change(alloc, &[A, AB, NO_AB])?;
    assert_eq!(rt; one.root, start);
    assert!(rt; one.body.as_slice() == [1, 0, 1, 0x61, 0, 1, 0x31].as_slice());
    let mut other = Saved::new(alloc);
    other.change(alloc, &[A, AB, NO_A])?;
    assert_eq!(rt; other.root, start);
    assert!(rt; other.body.as_slice() == [1, 0, 2, 0x61, 0x62, 0, 1, 0x32].as_slice());
    let mut none = Saved::new(alloc);
    none.change(alloc, &[A, AB, NO_A, NO_AB])?;
    assert_eq!(rt; none.root, None);
    assert!(rt; none.body.is_empty());
    Ok(())
}

#[test]
fn changes_that_change_nothing_write_nothing(rt: HostRuntime) -> Result<(), Fail> {
    let alloc = rt.alloc();
    let mut saved = both(alloc)?;
    saved.change(alloc, &[])?;
    saved.change(alloc, &[A, AB])?;
    saved.set(alloc, b"abc", None)?;
    saved.set(alloc, b"", None)?;
    assert_eq!(rt; saved.root, Some(Address { file: 0, at: 6 }));
    assert_eq!(rt; saved.body.len(), 29);
    Ok(())
}
