//! Runs over a store: each call of its device fails in turn, and a crash comes at each moment.
use super::replayed;
use std::alloc::Global;
use std::test::Fail;
use xod_base::Bytes;
use xod_volume::{Crash, MemoryVolume};

/// The words of a run whose log rolls early.
const WORDS: [&str; 3] = ["replay", "--target", "4096"];

/// What a crash may leave, by each choice.
const CHOICES: [Crash; 3] = [Crash::Kept, Crash::Lost, Crash::Scrambled];

/// Three commits of two sessions, the first one synced and large, beside a session that reads the first.
const BEGIN: &str = "session a\nbegin\nnew T as $x\n";

const END: &str = "flush\nsync\nset $x n 2\nflush\nend\n\
    session b\nbegin\nnew T as $y\nflush\nend\n\
    session c\nbegin read\ncount all T\nend\n\
    order\nturn a begin\nturn a flush\nturn a sync\nturn c begin\nturn a flush\n\
    turn b begin\nturn b flush\nturn a end\nturn c end\nturn b end\n";

const TEXT: &str =
    "session a\n2: at 0\n3: 0-0\n4: ok\n5: ok\n6: ok\n7: committed 1\n8: synced\n9: ok\n\
    10: committed 2\n11: ended\nsession b\n13: at 2\n14: 0-1\n15: committed 3\n16: ended\n\
    session c\n18: at 1\n19: count 1\n20: ended\ntotal commit 3 hits 0 misses 1 files 2\n\
    order\nturn a begin\nturn a flush\nturn a sync\nturn c begin\nturn a flush\n\
    turn b begin\nturn b flush\nturn a end\nturn c end\nturn b end\n";

/// A script that reads a store, and its transcript at each commit. The files are counted by the first digit behind.
const READER: &str =
    "session r\nbegin read\ncount all T\nquery find T n 2\nend\norder\nturn r begin\nturn r end\n";

const READ: [&str; 4] = [
    "session r\n2: at 0\n3: count 0\n4: ids\n5: ended\ntotal commit 0 hits 0 misses 2 files ",
    "session r\n2: at 1\n3: count 1\n4: ids\n5: ended\ntotal commit 1 hits 0 misses 2 files ",
    "session r\n2: at 2\n3: count 1\n4: ids 0-0\n5: ended\ntotal commit 2 hits 0 misses 2 files ",
    "session r\n2: at 3\n3: count 2\n4: ids 0-0\n5: ended\ntotal commit 3 hits 0 misses 2 files ",
];

/// The script, whose first commit has three long texts.
fn script(alloc: Global) -> Result<Vec<u8>, Fail> {
    let mut input = Vec::new(alloc);
    input.extend_from_slice(BEGIN.as_bytes())?;
    for name in [b"p", b"q", b"r"] {
        input.extend_from_slice(b"set $x ")?;
        input.extend_from_slice(name)?;
        input.extend_from_slice(b" \"")?;
        let length = input.len() + 1024;
        input.resize(length, b'y')?;
        input.extend_from_slice(b"\"\n")?;
    }
    input.extend_from_slice(END.as_bytes())?;
    Ok(input)
}

/// How that transcript begins at each commit, whoever made it, and how one that comes to it tells its totals.
const AT: [&str; 4] = [
    "session r\n2: at 0\n",
    "session r\n2: at 1\n",
    "session r\n2: at 2\n",
    "session r\n2: at 3\n",
];

const TOTALS: [&str; 4] = [
    "\ntotal commit 0 ",
    "\ntotal commit 1 ",
    "\ntotal commit 2 ",
    "\ntotal commit 3 ",
];

/// The commit that a store opens to, where its rows are those of that commit.
fn commit_of(alloc: Global, volume: MemoryVolume) -> Result<Option<usize>, Fail> {
    let (status, text, _) = replayed(alloc, &WORDS, READER.as_bytes(), volume)?;
    if status != 0 {
        return Ok(None);
    }
    for (commit, read) in READ.iter().enumerate() {
        if text.as_slice().starts_with(read.as_bytes()) {
            return Ok(Some(commit));
        }
    }
    Ok(None)
}

/// The commit that a store opens to.
fn opened_at(alloc: Global, volume: MemoryVolume) -> Result<Option<usize>, Fail> {
    let (status, text, _) = replayed(alloc, &WORDS, READER.as_bytes(), volume)?;
    if status != 0 {
        return Ok(None);
    }
    Ok(
        AT.iter()
            .position(|begins| text.as_slice().starts_with(begins.as_bytes())),
    )
}

/// Whether a text has a word in it.
fn says(text: &Bytes, word: &str) -> bool {
    let bytes = text.as_slice();
    for at in 0..bytes.len() {
        if let Some(rest) = bytes.get(at..) {
            if rest.starts_with(word.as_bytes()) {
                return true;
            }
        }
    }
    false
}

#[test]
fn each_image_of_a_run_is_a_commit(rt: HostRuntime) -> Result<(), Fail> {
    let alloc = rt.alloc();
    let (status, text, volume) = replayed(
        alloc,
        &WORDS,
        &script(alloc)?,
        MemoryVolume::new(alloc)?,
    )?;
    assert_eq!(rt; status, 0);
    assert_eq!(rt; text.as_slice(), TEXT.as_bytes());
    let last = volume.moment();
    for moment in 0..=last {
        for choice in CHOICES {
            let commit = commit_of(alloc, volume.crash(moment, choice)?)?;
            assert!(rt; commit.is_some(), "at {moment}, {choice:?}");
            if moment == last {
                assert_eq!(rt; commit, Some(3), "at the end, {choice:?}");
            }
        }
    }
    assert_eq!(rt; commit_of(alloc, volume)?, Some(3));
    Ok(())
}

#[test]
fn each_call_that_fails_shows_and_loses_nothing_synced(rt: HostRuntime) -> Result<(), Fail> {
    let alloc = rt.alloc();
    let input = script(alloc)?;
    for call in 0..400u64 {
        let volume = MemoryVolume::failing(alloc, &[call])?;
        let (status, text, volume) = replayed(alloc, &WORDS, &input, volume)?;
        if volume.faults() == 0 {
            assert_eq!(rt; text.as_slice(), TEXT.as_bytes(), "without call {call}");
            return Ok(());
        }
        assert_eq!(rt; status, 4, "call {call}");
        let least = if says(&text, "8: synced") { 1 } else { 0 };
        // A store that could not be opened has no totals.
        let most = TOTALS
            .iter()
            .position(|total| says(&text, total))
            .unwrap_or(0);
        for choice in CHOICES {
            let commit = opened_at(alloc, volume.crash(volume.moment(), choice)?)?;
            let Some(commit) = commit else {
                return Err(Fail::from("no commit"));
            };
            assert!(rt;
                least <= commit && commit <= most,
                "call {call}, {choice:?}: {commit}"
            );
        }
    }
    Err(Fail::from("there are more calls"))
}

/// A session whose second flush fails, and one that begins behind it.
const LATER: &str = "session a\nbegin\nnew T as $x\nflush\nsync\nnew T as $y\nflush\nend\n\
    session b\nbegin\nend\norder\nturn a begin\nturn a flush\nturn a sync\nturn a flush\n\
    turn a end\nturn b begin\nturn b end\n";

const BROKEN: &str =
    "session a\n2: at 0\n3: 0-0\n4: committed 1\n5: synced\n6: 0-1\n7: stop device\n\
    session b\n10: stop broken\ntotal commit 1 hits 0 misses 0 files 1\norder\nturn a begin\n\
    turn a flush\nturn a sync\nturn a stop 7 device\nturn b stop 10 broken\n";

#[test]
fn a_failed_append_breaks_the_store_until_it_is_opened_again(rt: HostRuntime) -> Result<(), Fail> {
    let alloc = rt.alloc();
    for call in 0..100u64 {
        let volume = MemoryVolume::failing(alloc, &[call])?;
        let (status, text, volume) = replayed(alloc, &["replay"], LATER.as_bytes(), volume)?;
        if text.as_slice() == BROKEN.as_bytes() {
            assert_eq!(rt; status, 4);
            let (status, text, _) = replayed(alloc, &["replay"], b"", volume)?;
            assert_eq!(rt; status, 0);
            assert_eq!(rt;
                text.as_slice(),
                b"total commit 1 hits 0 misses 0 files 1\norder\n".as_slice()
            );
            return Ok(());
        }
    }
    Err(Fail::from("no call is that append"))
}
