//! From a record of calls to what a crash leaves of each file.
//!
//! `MemoryVolume::crash` hands in the files at first and the calls up to a moment. A file is walked by itself, over all
//! calls, of which it takes its own: that costs as many steps as there are calls for each file, and a copy of the file
//! at each of its syncs, which is fine for the tests that crash a volume.
ghost use Rattle.std.specs.Prelude.{◌≡◌, ◌≤◌, ◌==◌, ℕ, [], false, length, reverse, IfOk, None, if◌then◌else◌};
ghost use Rattle.std.specs.Option.{option_map};
ghost use Rattle.std.specs.FinMap.{get};
ghost use Rattle.xod_volume.specs.Files.{Content, bytes_in, overwritten};
ghost use Rattle.xod_volume.specs.Leases.{names};
ghost use Rattle.xod_volume.specs.Record.{blotted, done, synced_by, scrambled_by, fate_of, on_file, crashed};

use crate::body::Body;
use crate::fate::{Crash, Fate};
use crate::history::{Call, Deed};
use crate::table::FileTable;
use std::alloc::Global;
use xod_base::{Bytes, Memory};

/// The same content once more.
fn copy_of(alloc: Global, content: &Option<Bytes>) -> Result<Option<Bytes>, Memory>
    ensures { IfOk result (λ copy. copy ≡ content.now) }
{
    match content {
        Some(bytes) => Ok(Some(bytes.try_clone(alloc)?)),
        None => Ok(None),
    }
}

/// The bytes with others written over them at a place, as far as they go.
fn written_over(mut bytes: Vec<u8>, at: u64, patch: &[u8]) -> Vec<u8>
    ensures { result.items ≡ overwritten bytes.items at patch.now }
{
    let length = bytes.len();
    if at < length as u64 {
        let from = at as usize;
        let n = patch.len().min(length - from);
        bytes[from..from + n].copy_from_slice(&patch[..n]);
    }
    bytes
}

/// The bytes with n bytes 0xFF over them at a place, past their end too.
fn blot(alloc: Global, bytes: Vec<u8>, at: u64, n: u64) -> Result<Vec<u8>, Memory>
    ensures { IfOk result (λ after. after.items ≡ blotted at n bytes.items) }
{
    if (bytes.len() as u64) < at {
        return Ok(bytes);
    }
    let from = at as usize;
    let Some(end) = from.checked_add(n as usize) else {
        return Err(Memory);
    };
    let mut after = Vec::from_slice(alloc, &bytes[..from])?;
    after.resize(end, 255)?;
    if end < bytes.len() {
        after.extend_from_slice(&bytes[end..])?;
    }
    Ok(after)
}

/// What reads give after a call.
fn after_call(alloc: Global, was: Option<Bytes>, deed: &Deed) -> Result<Option<Bytes>, Memory>
    ensures { IfOk result (λ now. now ≡ done deed.now was) }
{
    match deed {
        Deed::Create => Ok(Some(Bytes::new(alloc))),
        Deed::Append(more) => match was {
            Some(mut bytes) => {
                bytes.extend(more.as_slice())?;
                Ok(Some(bytes))
            }
            None => Ok(None),
        },
        Deed::WriteAt(at, patch) => match was {
            Some(bytes) => Ok(Some(Bytes::from_vec(written_over(
                bytes.into_vec(),
                *at,
                patch.as_slice(),
            )))),
            None => Ok(None),
        },
        Deed::Cut(length) => match was {
            Some(bytes) => {
                let mut kept = bytes.into_vec();
                kept.truncate(*length as usize);
                Ok(Some(Bytes::from_vec(kept)))
            }
            None => Ok(None),
        },
        Deed::Remove => Ok(None),
        Deed::Sync | Deed::Tear(_, _) | Deed::Nothing => Ok(was),
    }
}

/// The file as it was synced last, after a call.
fn synced_after(
    alloc: Global,
    present: &Option<Bytes>,
    was: Option<Bytes>,
    deed: &Deed,
) -> Result<Option<Bytes>, Memory>
    ensures { IfOk result (λ synced. synced ≡ synced_by deed.now present.now was) }
{
    match deed {
        Deed::Sync => copy_of(alloc, present),
        _ => Ok(was),
    }
}

/// A content with 0xFF over n bytes.
fn blot_content(alloc: Global, was: Option<Bytes>, at: u64, n: u64) -> Result<Option<Bytes>, Memory>
    ensures { IfOk result (λ after. after ≡ option_map (blotted at n) was) }
{
    match was {
        Some(bytes) => Ok(Some(Bytes::from_vec(blot(alloc, bytes.into_vec(), at, n)?))),
        None => Ok(None),
    }
}

/// How many bytes stand there.
fn length_in(content: &Option<Bytes>) -> u64
    ensures { result ≡ length (bytes_in content.now) }
{
    match content {
        Some(bytes) => bytes.len() as u64,
        None => 0,
    }
}

/// The scrambled file after a call.
fn scrambled_after(
    alloc: Global,
    now: &Option<Bytes>,
    was: Option<Bytes>,
    deed: &Deed,
) -> Result<Option<Bytes>, Memory>
    ensures { IfOk result (λ scrambled. scrambled ≡ scrambled_by deed.now now.now was) }
{
    match deed {
        Deed::Create => Ok(Some(Bytes::new(alloc))),
        Deed::Append(more) => blot_content(alloc, was, length_in(now), more.len() as u64),
        Deed::WriteAt(at, patch) => blot_content(alloc, was, *at, patch.as_slice().len() as u64),
        Deed::Tear(at, n) => blot_content(alloc, was, *at, *n),
        Deed::Sync => copy_of(alloc, now),
        Deed::Remove => Ok(None),
        Deed::Cut(_) | Deed::Nothing => Ok(was),
    }
}

/// What each choice gives of a file after a call on it.
fn fate_after(alloc: Global, fate: Fate, deed: &Deed) -> Result<Fate, Memory>
    ensures { IfOk result (λ next. next ≡ record {
      reads = done deed.now fate.reads;
      synced = synced_by deed.now fate.reads fate.synced;
      scrambled = scrambled_by deed.now fate.reads fate.scrambled;
    }) }
{
    let Fate {
        reads,
        synced,
        scrambled,
    } = fate;
    let synced = synced_after(alloc, &reads, synced, deed)?;
    let scrambled = scrambled_after(alloc, &reads, scrambled, deed)?;
    let reads = after_call(alloc, reads, deed)?;
    Ok(Fate {
        reads,
        synced,
        scrambled,
    })
}

/// What each choice gives of a file that is as at first.
fn fate_at_first(alloc: Global, start: &FileTable, file: u64) -> Result<Fate, Memory>
    ensures { IfOk result (λ fate. fate ≡ fate_of (get start.now file) []) }
{
    Ok(Fate {
        reads: start.content(alloc, file)?,
        synced: start.content(alloc, file)?,
        scrambled: start.content(alloc, file)?,
    })
}

/// What each choice gives of a file after these calls, the oldest first.
fn fate_of_file(alloc: Global, start: &FileTable, calls: &[Call], file: u64) -> Result<Fate, Memory>
    ensures { IfOk result (λ fate. fate
        ≡ fate_of (get start.now file) (on_file file (reverse calls.now))) }
{
    let mut fate = fate_at_first(alloc, start, file)?;
    for call in calls {
        if call.file == file {
            fate = fate_after(alloc, fate, &call.deed)?;
        }
    }
    Ok(fate)
}

/// What a choice gives of a file after these calls, the oldest first.
fn left_of_file(
    alloc: Global,
    start: &FileTable,
    calls: &[Call],
    file: u64,
    choice: Crash,
) -> Result<Option<Bytes>, Memory>
    ensures { IfOk result (λ left. left
        ≡ crashed choice (get start.now file) (on_file file (reverse calls.now))) }
{
    let Fate {
        reads,
        synced,
        scrambled,
    } = fate_of_file(alloc, start, calls, file)?;
    match choice {
        Crash::Kept => Ok(reads),
        Crash::Lost => Ok(synced),
        Crash::Scrambled => Ok(scrambled),
    }
}

/// Each number that a file was there under at first, or that a call names.
fn numbers_in(alloc: Global, start: &FileTable, calls: &[Call]) -> Result<Vec<u64>, Memory>
    ensures { IfOk result (λ numbers. (file : ℕ) → names numbers.items file ≡ false
        → (get start.now file ≡ None) × (on_file file (reverse calls.now) ≡ [])) }
{
    let mut numbers = start.numbers(alloc)?;
    for call in calls {
        if !numbers.contains(&call.file) {
            numbers.push(call.file)?;
        }
    }
    Ok(numbers)
}

/// The files that a choice gives after these calls, the oldest first.
pub fn crashed_files(
    alloc: Global,
    start: &FileTable,
    calls: &[Call],
    choice: Crash,
) -> Result<FileTable, Memory>
    ensures { IfOk result (λ files. (file : ℕ) → get files file
        ≡ crashed choice (get start.now file) (on_file file (reverse calls.now))) }
{
    let mut files = FileTable::new(alloc);
    for file in &numbers_in(alloc, start, calls)? {
        if let Some(bytes) = left_of_file(alloc, start, calls, *file, choice)? {
            files.insert(*file, Body::from_bytes(alloc, bytes.as_slice())?)?;
        }
    }
    Ok(files)
}
