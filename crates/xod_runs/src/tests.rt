//! How a test runs the top call.
mod faults;
mod program;
mod stores;

use std::alloc::Global;
use std::test::Fail;
use xod_base::Bytes;
use xod_io::{MemorySink, MemorySource, Sink, Source};
use xod_shell::{Outcome, xod_quiet};
use xod_volume::MemoryVolume;

/// The status of a run with these words, over this source, this sink and this volume, and the volume behind it.
pub(crate) fn run_over<S: Source, K: Sink>(
    alloc: Global,
    words: &[&str],
    source: &mut S,
    sink: &mut K,
    volume: MemoryVolume,
) -> Result<(u8, MemoryVolume), Fail> {
    let mut all = Vec::new(alloc);
    for word in words {
        all.push(String::from_str(alloc, word)?)?;
    }
    let Outcome { status, volume } = xod_quiet(alloc, &all, source, sink, volume);
    Ok((status, volume))
}

/// The status of a run with these words, over this source and this sink, and over a volume without files.
pub(crate) fn status_over<S: Source, K: Sink>(
    alloc: Global,
    words: &[&str],
    source: &mut S,
    sink: &mut K,
) -> Result<u8, Fail> {
    let (status, _) = run_over(alloc, words, source, sink, MemoryVolume::new(alloc)?)?;
    Ok(status)
}

/// What a run came to: its status and what it wrote, how many bytes it left unread, and how many calls failed, of the
/// source and of the sink.
#[derive(Drop)]
pub(crate) struct Run {
    pub status: u8,
    pub text: Bytes,
    pub left: usize,
    pub faults: (u64, u64),
}

/// Runs these words over an input, with a source and a sink that fail at these calls.
pub(crate) fn ran(
    alloc: Global,
    words: &[&str],
    input: &[u8],
    fails: (&[u64], &[u64]),
) -> Result<Run, Fail> {
    let (source_fails, sink_fails) = fails;
    let mut source = MemorySource::new(alloc, input, source_fails)?;
    let mut sink = MemorySink::new(alloc, sink_fails)?;
    let status = status_over(alloc, words, &mut source, &mut sink)?;
    let mut text = Bytes::new(alloc);
    text.extend(sink.bytes())?;
    Ok(Run {
        status,
        text,
        left: source.left().len(),
        faults: (source.faults(), sink.faults()),
    })
}

/// What a run of `xod replay` prints over a volume, its status, and the volume behind it.
pub(crate) fn replayed(
    alloc: Global,
    words: &[&str],
    input: &[u8],
    volume: MemoryVolume,
) -> Result<(u8, Bytes, MemoryVolume), Fail> {
    let mut source = MemorySource::new(alloc, input, &[])?;
    let mut sink = MemorySink::new(alloc, &[])?;
    let (status, volume) = run_over(alloc, words, &mut source, &mut sink, volume)?;
    let mut text = Bytes::new(alloc);
    text.extend(sink.bytes())?;
    Ok((status, text, volume))
}
