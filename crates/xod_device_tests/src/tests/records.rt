//! The bytes of records, links, marks and addresses, as docs/FORMATS.md has them.
use std::test::Fail;
use xod_base::{Bytes, Place, ReadError};
use xod_block::{
    Address, Body, BodyFetch, EndMark, Fetch, LogRecord, child_at, decode_mark, decode_record,
    encode_link, encode_mark, encode_record, link_at, link_count,
};

/// Two children, under the bytes 1 and 2, at the places 0 and 10 of file 0.
const NODE: [u8; 32] = [
    2, 0, 0, 0, 0, 2, 1, 0, 0, 0, 0, 0, 0, 0, 0, 0, 0, 0, 0, 2, 0, 0, 0, 0, 0, 0, 0, 0, 0, 0, 0, 10,
];

/// The same with a count of 1 and without the second child.
const HALF_NODE: [u8; 19] = [2, 0, 0, 0, 0, 1, 1, 0, 0, 0, 0, 0, 0, 0, 0, 0, 0, 0, 0];

/// The block of a store with one entity without properties, which is its whole body: 115 bytes in five records.
pub(crate) const ONE_ENTITY: [u8; 115] = [
    1, 0, 5, 1, 0, 0, 0, 0, 0, 1, 84, // tree 1: type 0 is T
    1, 0, 2, 1, 84, 0, 4, 0, 0, 0, 0, // tree 2: T is 0
    1, 0, 4, 0, 0, 0, 0, 0, 8, 0, 0, 0, 0, 0, 0, 0, 1, // tree 3: the next number is 1
    1, 0, 8, 0, 0, 0, 0, 0, 0, 0, 0, 0, 0, // tree 4: entity 0-0
    3, 1, 0, 0, 0, 0, 0, 0, 0, 1, 4, // a root of commit 1 with four trees
    1, 0, 0, 0, 0, 0, 0, 0, 0, 0, 0, 0, 0, //
    2, 0, 0, 0, 0, 0, 0, 0, 0, 0, 0, 0, 11, //
    3, 0, 0, 0, 0, 0, 0, 0, 0, 0, 0, 0, 22, //
    4, 0, 0, 0, 0, 0, 0, 0, 0, 0, 0, 0, 39, //
];

#[test]
fn a_node_without_value_has_two_children(rt: HostRuntime) -> Result<(), Fail> {
    let (node, length) = decode_record(&NODE).ok_or("no record")?;
    assert_eq!(rt; length, 32);
    let LogRecord::Node { children, .. } = node else {
        return Err(Fail::from("no node"));
    };
    assert_eq!(rt; link_count(children), 2);
    assert_eq!(rt; child_at(&node, 0), (1, Address { file: 0, at: 0 }));
    assert_eq!(rt; child_at(&node, 1), (2, Address { file: 0, at: 10 }));
    assert!(rt; decode_record(&HALF_NODE).is_none());
    Ok(())
}

#[test]
fn a_body_is_read_to_its_end_and_written_again(rt: HostRuntime) -> Result<(), Fail> {
    let mut out = Bytes::new(rt.alloc());
    let mut rest: &[u8] = &ONE_ENTITY;
    for want in [11, 11, 17, 13, 63] {
        let (item, length) = decode_record(rest).ok_or("no record")?;
        assert_eq!(rt; length, want);
        encode_record(rt.alloc(), &mut out, &item)?;
        let (_, behind) = rest.split_at(length);
        rest = behind;
    }
    assert!(rt; rest.is_empty());
    assert!(rt; out.as_slice() == ONE_ENTITY.as_slice());
    Ok(())
}

#[test]
fn a_root_names_its_trees(rt: HostRuntime) -> Result<(), Fail> {
    let (_, rest) = ONE_ENTITY.split_at(52);
    let (root, _) = decode_record(rest).ok_or("no record")?;
    let LogRecord::Root { commit, trees } = root else {
        return Err(Fail::from("no root"));
    };
    assert_eq!(rt; commit, 1);
    assert_eq!(rt; link_count(trees), 4);
    assert_eq!(rt; link_at(trees, 3), (4, Address { file: 0, at: 39 }));
    assert!(rt; encode_link(4, Address { file: 0, at: 39 }).as_slice() == &trees[39..]);
    Ok(())
}

#[test]
fn a_mark_is_its_thirteen_bytes(rt: HostRuntime) {
    let bytes = [0, 0, 0, 0, 0, 0, 0, 0x73, 0, 0, 0, 0x3f, 1];
    let mark = EndMark {
        end: 115,
        back: 63,
        gate: 1,
    };
    assert!(rt; encode_mark(mark).as_slice() == bytes.as_slice());
    assert_eq!(rt; decode_mark(bytes), mark);
    assert_eq!(rt; decode_mark([255; 13]).gate, 255);
}

#[test]
fn a_record_is_fetched_by_its_address(rt: HostRuntime) -> Result<(), Fail> {
    let bodies = [
        Body {
            file: 3,
            bytes: &ONE_ENTITY,
        },
        Body {
            file: 5,
            bytes: &NODE,
        },
        Body {
            file: 3,
            bytes: &NODE,
        },
    ];
    let mut fetch = BodyFetch { bodies: &bodies };
    let mut out = Bytes::new(rt.alloc());
    let length = fetch.fetch(rt.alloc(), Address { file: 3, at: 11 }, &mut out)?;
    assert_eq!(rt; length, 11);
    assert!(rt; out.as_slice() == &ONE_ENTITY[11..22]);
    let node = fetch.fetch(rt.alloc(), Address { file: 5, at: 0 }, &mut out)?;
    assert_eq!(rt; node, 32);
    assert_eq!(rt; out.len(), 43);
    // No record begins there; the error names the body's file in the volume.
    for (file, at, body) in [
        (3, 12, 6),
        (3, 115, 6),
        (3, u64::MAX, 6),
        (2, 11, 4),
        (u32::MAX, 0, 8589934590),
    ] {
        let absent = fetch.fetch(rt.alloc(), Address { file, at }, &mut out);
        assert_eq!(rt; absent, Err(ReadError::Damaged(Place { file: body, at })));
        assert_eq!(rt; out.len(), 43);
    }
    Ok(())
}

#[test]
fn addresses_go_by_file_and_then_by_place(rt: HostRuntime) {
    let first = Address { file: 0, at: 9 };
    let second = Address { file: 1, at: 0 };
    assert!(rt; first.is_below(second));
    assert!(rt; !second.is_below(first));
    assert!(rt; !first.is_below(first));
}
