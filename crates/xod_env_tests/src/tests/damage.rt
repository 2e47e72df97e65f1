//! Files that are not as a store left them: a torn tail, bad bytes, files cut short, and files that are missing.
use super::seen::{Seen, look};
use super::worked::reopened;
use std::alloc::Global;
use std::test::Fail;
use xod_base::Place;
use xod_trial::{ONE_ENTITY, SEALED, content, volume_with};

/// The ends where a second mark has the numbers of a block as long, and its gate is closed.
const ONE_OPEN: [u8; 39] = [
    0, 0, 0, 0, 0, 0, 0, 115, 0, 0, 0, 63, 1, //
    0, 0, 0, 0, 0, 0, 0, 230, 0, 0, 0, 63, 0, //
    0, 0, 0, 0, 0, 0, 0, 0, 0, 0, 0, 0, 0,
];

/// The store of one entity, at a commit.
fn whole(commit: u64) -> Seen {
    Seen::Other { commit, pairs: 4 }
}

fn damaged(file: u64, at: u64) -> Seen {
    Seen::Damaged(Place { file, at })
}

/// What is to be seen where byte `at` of the body is one more, or has all its bits turned over.
fn body_wanted(at: usize, is_one_more: bool) -> Seen {
    match (at, is_one_more) {
        // A higher next number.
        (35..=38, _) => whole(1),
        // Other keys and values, and lengths behind which a leaf still stands whole: tables of no rows.
        (3..=7 | 10 | 14 | 15 | 18..=21 | 25..=28 | 31..=34 | 42..=49, _) => damaged(0, 52),
        (9 | 17 | 30 | 41 | 51, true) => damaged(0, 52),
        // The other bytes of the four leaves.
        (0..=9, _) => damaged(0, 0),
        (11..=17, _) => damaged(0, 11),
        (22..=30, _) => damaged(0, 22),
        (39..=51, _) => damaged(0, 39),
        // The number of the commit.
        (54..=60, true) => whole((1 << (8 * (61 - at))) | 1),
        (54..=60, false) => whole((255 << (8 * (61 - at))) | 1),
        (61, true) => whole(2),
        (61, false) => whole(254),
        // The four trees begin one byte later, where no leaf stands.
        (75, true) => damaged(0, 1),
        (88, true) => damaged(0, 12),
        (101, true) => damaged(0, 23),
        (114, true) => damaged(0, 40),
        // The rest of the root, the number of tree 4 too: as tree 5 it is no table.
        _ => damaged(0, 52),
    }
}

/// The same of the ends.
fn ends_wanted(at: usize, is_one_more: bool) -> Seen {
    match (at, is_one_more) {
        // The end is behind that of the body.
        (0..=7, _) => damaged(0, 115),
        // No root begins 64 bytes before the end, and none more than 115.
        (11, true) => damaged(0, 51),
        (8..=11, _) => damaged(1, 0),
        // A gate is open whatever it is but 0, and the closed mark does not count.
        _ => whole(1),
    }
}

/// Whether just this is seen on two files; where it is a bad place, these are as they were afterwards.
fn is_seen(alloc: Global, body: &[u8], ends: &[u8], wanted: Seen) -> Result<bool, Fail> {
    let volume = volume_with(alloc, Some(body), Some(ends))?;
    let (mut volume, seen) = look(alloc, volume);
    if seen != wanted {
        return Ok(false);
    }
    let Seen::Damaged(_) = seen else {
        return Ok(true);
    };
    let is_body = content(alloc, &mut volume, 0)?.as_slice() == body;
    let are_ends = content(alloc, &mut volume, 1)?.as_slice() == ends;
    Ok(is_body && are_ends)
}

/// Another byte: one more, or with all bits turned over.
fn other(byte: u8, is_one_more: bool) -> u8 {
    if is_one_more {
        byte.wrapping_add(1)
    } else {
        byte ^ 255
    }
}

#[test]
fn a_last_block_that_decodes_is_not_the_newest(rt: HostRuntime) -> Result<(), Fail> {
    let alloc = rt.alloc();
    let mut twice = ONE_ENTITY.to_vec(alloc)?;
    twice.extend_from_slice(&ONE_ENTITY)?;
    let volume = volume_with(alloc, Some(&twice), Some(&ONE_OPEN))?;
    let (mut volume, version, has_all) = reopened(alloc, volume)?;
    assert_eq!(rt; version, 1);
    assert!(rt; has_all);
    assert!(rt; content(alloc, &mut volume, 0)?.as_slice() == ONE_ENTITY.as_slice());
    assert_eq!(rt;
        content(alloc, &mut volume, 1)?.as_slice(),
        SEALED.as_slice()
    );
    Ok(())
}

#[test]
fn each_bad_byte_opens_to_tables_or_is_told(rt: HostRuntime) -> Result<(), Fail> {
    let alloc = rt.alloc();
    for is_one_more in [true, false] {
        for at in 0..115usize {
            let mut body = ONE_ENTITY;
            body[at] = other(body[at], is_one_more);
            let wanted = body_wanted(at, is_one_more);
            assert!(rt;
                is_seen(alloc, &body, &SEALED, wanted)?,
                "byte {at} of the body"
            );
        }
        for at in 0..26usize {
            let mut ends = SEALED;
            ends[at] = other(ends[at], is_one_more);
            let wanted = ends_wanted(at, is_one_more);
            assert!(rt;
                is_seen(alloc, &ONE_ENTITY, &ends, wanted)?,
                "byte {at} of the ends"
            );
        }
    }
    Ok(())
}

#[test]
fn a_cut_body_is_damaged_at_its_length(rt: HostRuntime) -> Result<(), Fail> {
    let alloc = rt.alloc();
    for length in 0..115usize {
        let wanted = damaged(0, length as u64);
        assert!(rt;
            is_seen(alloc, &ONE_ENTITY[..length], &SEALED, wanted)?,
            "{length} bytes of the body"
        );
    }
    for length in 0..26usize {
        assert!(rt;
            is_seen(alloc, &ONE_ENTITY, &SEALED[..length], Seen::Commit(0))?,
            "{length} bytes of the ends"
        );
    }
    Ok(())
}

#[test]
fn a_log_file_without_both_its_files_is_not_used(rt: HostRuntime) -> Result<(), Fail> {
    let alloc = rt.alloc();
    let body = ONE_ENTITY.as_slice();
    let ends = SEALED.as_slice();
    for (body, ends, wanted) in [
        (Some(body), Some(ends), whole(1)),
        (Some(body), None, Seen::Commit(0)),
        (None, Some(ends), Seen::Commit(0)),
        (None, None, Seen::Commit(0)),
    ] {
        let volume = volume_with(alloc, body, ends)?;
        let (_, seen) = look(alloc, volume);
        assert_eq!(rt; seen, wanted);
    }
    Ok(())
}
