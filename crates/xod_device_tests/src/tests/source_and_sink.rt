//! Reads and writes of each size with each call failing in turn, in memory and over readers and writers of std.
ghost use Rattle.std.specs.Prelude.{◌≤◌};

use std::alloc::Global;
use std::io;
use std::io::{ErrorKind, Read, Write};
use std::test::Fail;
use xod_base::{Failed, Memory};
use xod_io::{MemorySink, MemorySource, StdSink, StdSource, TakeError, read_all, write_all};

const LETTERS: &[u8; 5] = b"abcde";

/// Reads the first letters with the limit 4. It answers how many of them came, in order and with none left behind, and
/// how many calls failed.
fn read_letters(
    alloc: Global,
    size: usize,
    failing: &[u64],
) -> Result<(Result<Option<usize>, TakeError>, u64), Memory>
    requires { size ≤ 5 }
{
    let letters = &LETTERS[..size];
    let mut source = MemorySource::new(alloc, letters, failing)?;
    let count = match read_all(alloc, &mut source, 4) {
        Ok(taken) if taken.as_slice() == letters && source.left().is_empty() => {
            Ok(Some(taken.len()))
        }
        Ok(_) => Ok(None),
        Err(error) => Err(error),
    };
    Ok((count, source.faults()))
}

/// Writes the first letters. It answers whether all were taken, how many the sink has, and how many calls failed.
fn write_letters(alloc: Global, size: usize, failing: &[u64]) -> Result<(bool, usize, u64), Memory>
    requires { size ≤ 5 }
{
    let mut sink = MemorySink::new(alloc, failing)?;
    let taken = write_all(&mut sink, &LETTERS[..size]).is_ok();
    Ok((taken, sink.bytes().len(), sink.faults()))
}

#[test]
fn a_source_is_read_whole_or_is_too_long_or_fails(rt: HostRuntime) -> Result<(), Fail> {
    for (size, failing, wanted) in [
        (0, 9, (Ok(Some(0)), 0)),
        (1, 9, (Ok(Some(1)), 0)),
        (3, 9, (Ok(Some(3)), 0)),
        (4, 9, (Ok(Some(4)), 0)),
        (5, 9, (Err(TakeError::TooLong), 0)),
        (0, 0, (Err(TakeError::Failed), 1)),
        (3, 0, (Err(TakeError::Failed), 1)),
        (3, 1, (Err(TakeError::Failed), 1)),
        (3, 2, (Ok(Some(3)), 0)),
        (5, 0, (Err(TakeError::Failed), 1)),
        (5, 1, (Err(TakeError::TooLong), 0)),
    ] {
        let size: usize = size;
        assert!(rt; size <= 5);
        let taken = read_letters(rt.alloc(), size, &[failing])?;
        assert_eq!(rt; taken, wanted, "{size} letters, call {failing} fails");
    }
    Ok(())
}

#[test]
fn a_sink_takes_all_or_fails(rt: HostRuntime) -> Result<(), Fail> {
    for (size, failing, wanted) in [
        (0, 9, (true, 0, 0)),
        (1, 9, (true, 1, 0)),
        (5, 9, (true, 5, 0)),
        (0, 0, (true, 0, 0)),
        (1, 0, (false, 0, 1)),
        (5, 0, (false, 0, 1)),
        (5, 1, (true, 5, 0)),
    ] {
        let size: usize = size;
        assert!(rt; size <= 5);
        let written = write_letters(rt.alloc(), size, &[failing])?;
        assert_eq!(rt; written, wanted, "{size} letters, call {failing} fails");
    }
    Ok(())
}

/// The calls of a stream of std, one of which fails.
#[derive(Drop)]
struct Calls {
    made: u64,
    failing: u64,
}

impl Calls {
    /// The call with this number fails, counted from 0.
    fn new(failing: u64) -> Self {
        Calls { made: 0, failing }
    }

    fn begin(&mut self) -> io::Result<()> {
        let number = self.made;
        self.made = number.saturating_add(1);
        if number == self.failing {
            return Err(ErrorKind::BrokenPipe.into());
        }
        Ok(())
    }
}

/// A reader that gives two bytes a call at most.
#[derive(Drop)]
struct Slow {
    left: &'static [u8],
    calls: Calls,
}

impl Read for Slow {
    fn read(&mut self, out: &mut [u8]) -> io::Result<usize> {
        self.calls.begin()?;
        let count = self.left.len().min(out.len()).min(2);
        let (front, behind) = self.left.split_at(count);
        out[..count].copy_from_slice(front);
        self.left = behind;
        Ok(count)
    }
}

/// A writer that takes a few bytes a call, and lets go of them only where it is flushed.
#[derive(Drop)]
struct Held {
    kept: Vec<u8>,
    through: Vec<u8>,
    at_most: usize,
    calls: Calls,
}

impl Write for Held {
    fn write(&mut self, bytes: &[u8]) -> io::Result<usize> {
        self.calls.begin()?;
        let count = bytes.len().min(self.at_most);
        match self.kept.extend_from_slice(&bytes[..count]) {
            Ok(()) => Ok(count),
            Err(_) => Err(ErrorKind::OutOfMemory.into()),
        }
    }

    fn flush(&mut self) -> io::Result<()> {
        self.calls.begin()?;
        match self.through.append(&mut self.kept) {
            Ok(()) => Ok(()),
            Err(_) => Err(ErrorKind::OutOfMemory.into()),
        }
    }
}

#[test]
fn a_source_over_std_reads_and_counts_errors(rt: HostRuntime) -> Result<(), Fail> {
    let mut source = StdSource::new(LETTERS.as_slice());
    assert_eq!(rt;
        read_all(rt.alloc(), &mut source, 5)?.as_slice(),
        LETTERS.as_slice()
    );
    assert_eq!(rt; source.faults(), 0);
    // Two letters a call: three calls take them, and a fourth sees the end.
    for (failing, whole) in [(0, false), (1, false), (2, false), (3, false), (4, true)] {
        let mut source = StdSource::new(Slow {
            left: LETTERS,
            calls: Calls::new(failing),
        });
        match read_all(rt.alloc(), &mut source, 5) {
            Ok(taken) => assert!(rt; whole && taken.as_slice() == LETTERS.as_slice()),
            Err(error) => assert!(rt; !whole && error == TakeError::Failed),
        }
        assert_eq!(rt;
            source.faults(),
            if whole { 0 } else { 1 },
            "call {failing} fails"
        );
    }
    Ok(())
}

#[test]
fn a_sink_over_std_flushes_each_write_and_counts_errors(rt: HostRuntime) -> Result<(), Fail> {
    // Two letters a call, each call followed by a flush: six calls, of which the odd ones let go of what was written. A
    // stream that takes no byte is a fault too.
    for (at_most, failing, through, wanted) in [
        (2, 0, b"".as_slice(), Err(Failed)),
        (2, 1, b"".as_slice(), Err(Failed)),
        (2, 2, b"ab".as_slice(), Err(Failed)),
        (2, 3, b"ab".as_slice(), Err(Failed)),
        (2, 4, b"abcd".as_slice(), Err(Failed)),
        (2, 5, b"abcd".as_slice(), Err(Failed)),
        (2, 6, b"abcde".as_slice(), Ok(())),
        (0, 9, b"".as_slice(), Err(Failed)),
    ] {
        let mut held = Held {
            kept: Vec::new(rt.alloc()),
            through: Vec::new(rt.alloc()),
            at_most,
            calls: Calls::new(failing),
        };
        let mut sink = StdSink::new(&mut held);
        let written = write_all(&mut sink, LETTERS);
        let faults = sink.faults();
        assert_eq!(rt; held.through.as_slice(), through, "call {failing} fails");
        assert_eq!(rt; written, wanted, "call {failing} fails");
        assert_eq!(rt; faults, if wanted.is_ok() { 0 } else { 1 });
    }
    Ok(())
}
