//! A source and a sink that fail at each of their calls, and words that are no command.
use super::{ran, status_over};
use std::io;
use std::io::{ErrorKind, Read, Write};
use std::test::Fail;
use xod_io::{MemorySource, StdSink, StdSource};

const INPUT: &str =
    "session a\nbegin\nnew T as $x\nset $x p 3\nquery find T p 3\ncommit\norder\nturn a begin\nturn a flush\nturn a end\n";

const TEXT: &str =
    "session a\n2: at 0\n3: 0-0\n4: ok\n5: ids 0-0\n6: committed 1\n6: ended\ntotal commit 1 hits 0 misses 1 files 1\norder\nturn a begin\nturn a flush\nturn a end\n";

#[test]
fn a_fault_is_told_where_a_call_failed(rt: HostRuntime) -> Result<(), Fail> {
    // Two reads take the input and see its end, and one write takes the text; no third and no second one is made.
    for (read, write, status, text, left, faults) in [
        (9u64, 9u64, 0u8, TEXT, 0usize, (0u64, 0u64)),
        (2, 1, 0, TEXT, 0, (0, 0)),
        (0, 9, 6, "xod: source failed\n", INPUT.len(), (1, 0)),
        (1, 9, 6, "xod: source failed\n", 0, (1, 0)),
        (9, 0, 7, "", 0, (0, 1)),
        (0, 0, 7, "", INPUT.len(), (1, 1)),
    ] {
        let run = ran(
            rt.alloc(),
            &["replay"],
            INPUT.as_bytes(),
            (&[read], &[write]),
        )?;
        assert_eq!(rt; run.status, status, "failing at {read} and {write}");
        assert_eq!(rt;
            run.text.as_slice(),
            text.as_bytes(),
            "failing at {read} and {write}"
        );
        assert_eq!(rt; run.left, left, "failing at {read} and {write}");
        assert_eq!(rt; run.faults, faults, "failing at {read} and {write}");
    }
    Ok(())
}

#[test]
fn a_failed_write_takes_the_place_of_any_status(rt: HostRuntime) -> Result<(), Fail> {
    for (word, input, status) in [
        ("replay", INPUT, 0u8),
        ("play", INPUT, 2),
        ("replay", "frob\n", 3),
        ("replay", "session a\nbegin\ncommit\n", 9),
    ] {
        for (call, ended) in [(0u64, 7u8), (1, status)] {
            let run = ran(rt.alloc(), &[word], input.as_bytes(), (&[], &[call]))?;
            assert_eq!(rt; run.status, ended, "of {word:?} and {input:?}");
            assert_eq!(rt; run.text.is_empty(), call == 0, "of {word:?} and {input:?}");
        }
    }
    Ok(())
}

#[test]
fn other_words_are_a_usage_fault_and_read_nothing(rt: HostRuntime) -> Result<(), Fail> {
    // The source fails at its first read, which wrong words do not come to.
    let table: [(&[&str], u8); 9] = [
        (&["replay"], 6),
        (&[], 2),
        (&[""], 2),
        (&["run"], 2),
        (&["Replay"], 2),
        (&["replay "], 2),
        (&["--help"], 2),
        (&["replay", ""], 2),
        (&["replay", "replay"], 2),
    ];
    for (words, status) in table {
        let run = ran(rt.alloc(), words, INPUT.as_bytes(), (&[0], &[]))?;
        assert_eq!(rt; run.status, status, "of {words:?}");
        assert_eq!(rt; run.left, INPUT.len(), "of {words:?}");
        if status == 2 {
            assert_eq!(rt; run.text.as_slice(), b"xod: usage\n".as_slice());
            assert_eq!(rt; run.faults, (0, 0));
        }
    }
    Ok(())
}

/// A stream of std of which each read fails.
#[derive(Drop)]
struct Broken;

impl Read for Broken {
    fn read(&mut self, _out: &mut [u8]) -> io::Result<usize> {
        Err(ErrorKind::BrokenPipe.into())
    }
}

/// A stream of std that takes some bytes at a time and keeps them back. At a flush it lets go of them, or fails.
#[derive(Drop)]
struct Buffering {
    takes: usize,
    flushes: bool,
}

impl Write for Buffering {
    fn write(&mut self, bytes: &[u8]) -> io::Result<usize> {
        Ok(bytes.len().min(self.takes))
    }

    fn flush(&mut self) -> io::Result<()> {
        if self.flushes {
            return Ok(());
        }
        Err(ErrorKind::StorageFull.into())
    }
}

#[test]
fn what_a_stream_keeps_back_is_no_success(rt: HostRuntime) -> Result<(), Fail> {
    let alloc = rt.alloc();
    for (takes, flushes, status) in [
        (1000, true, 0),
        (1, true, 0),
        (0, true, 7),
        (1000, false, 7),
    ] {
        let mut source = MemorySource::new(alloc, INPUT.as_bytes(), &[])?;
        let mut sink = StdSink::new(Buffering { takes, flushes });
        let ended = status_over(alloc, &["replay"], &mut source, &mut sink)?;
        assert_eq!(rt; ended, status, "{takes} at a time");
        let mut sink = StdSink::new(Buffering { takes, flushes });
        let ended = status_over(alloc, &["replay"], &mut StdSource::new(Broken), &mut sink)?;
        let failed = if status == 0 { 6 } else { 7 };
        assert_eq!(rt; ended, failed, "{takes} at a time, of nothing");
    }
    Ok(())
}
