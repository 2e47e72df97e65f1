//! The log's bytes, as docs/FORMATS.md has them, where its files end, and what a crash leaves of it.
ghost use Rattle.std.specs.Prelude.{◌≡◌, ◌≤◌, IfOk};
ghost use Rattle.xod_volume.specs.Files.{no_files};
ghost use Rattle.xod_log.specs.Standing.{Stands};

use super::files::content;
use super::records::ONE_ENTITY;
use std::alloc::Global;
use std::test::Fail;
use xod_block::{Address, decode_mark};
use xod_log::{Log, LogError};
use xod_volume::{Crash, MemoryVolume, Volume};

/// A mark that is closed and has no numbers.
const CLOSED: [u8; 13] = [0; 13];

/// The mark of the block of 115 bytes whose root takes the last 63, and the closed one behind it.
const SEALED: [u8; 26] = [
    0, 0, 0, 0, 0, 0, 0, 115, 0, 0, 0, 63, 1, //
    0, 0, 0, 0, 0, 0, 0, 0, 0, 0, 0, 0, 0,
];

/// A log on a volume without files.
#[tactic(auto, using(xod_log::proofs::CallerLemmas::nothing_used))]
fn fresh_log(volume: &mut MemoryVolume, target: u64) -> Result<Log, LogError>
    requires { ⟦<MemoryVolume as Volume>⟧.files volume.old ≡ no_files }
    ensures { IfOk result (λ log. Stands log (⟦<MemoryVolume as Volume>⟧.files volume.new)
        (⟦<MemoryVolume as Volume>⟧.may_leave volume.new (⟦<MemoryVolume as Volume>⟧.moment volume.new))) }
{
    let log = Log::fresh(volume, target)?;
    Ok(log)
}

/// A log with the target 0 on the last log file but one, whose pair is made by hand in a volume without files.
fn last_but_one(volume: &mut MemoryVolume) -> Result<Log, LogError>
    requires { ⟦<MemoryVolume as Volume>⟧.files volume.old ≡ no_files }
    ensures { IfOk result (λ log. Stands log (⟦<MemoryVolume as Volume>⟧.files volume.new)
        (⟦<MemoryVolume as Volume>⟧.may_leave volume.new (⟦<MemoryVolume as Volume>⟧.moment volume.new))) }
{
    volume.create(8589934588)?;
    volume.create(8589934589)?;
    volume.append(8589934589, &CLOSED)?;
    volume.sync(8589934589)?;
    volume.sync(8589934588)?;
    Ok(Log::resume(4294967294, 0, 0, 0, 0))
}

/// Two blocks in log file 0, and one in file 1 that is sealed too.
fn write_three_blocks(volume: &mut MemoryVolume) -> Result<(), LogError>
    requires { ⟦<MemoryVolume as Volume>⟧.files volume.old ≡ no_files }
{
    let mut log = fresh_log(volume, 1000)?;
    log.append_block(volume, b"first", 5)?;
    log.seal(volume)?;
    log.append_block(volume, b"second", 3)?;
    log.roll(volume)?;
    log.append_block(volume, b"third", 2)?;
    log.seal(volume)
}

/// How many marks of a log file are open, where its body has the bytes that were written up to the end of each.
fn open_marks(body: &[u8], ends: &[u8], written: &[u8]) -> Option<u64> {
    let marks = ends.len() / 13;
    let mut open = 0u64;
    for (number, bytes) in ends.chunks_exact(13).enumerate() {
        let Ok(bytes) = <[u8; 13]>::try_from(bytes) else {
            return None;
        };
        let mark = decode_mark(bytes);
        if mark.gate == 0 || number + 1 == marks {
            return Some(open);
        }
        let end = mark.end as usize;
        match (body.get(..end), written.get(..end)) {
            (Some(there), Some(due)) if there == due => open = open.saturating_add(1),
            _ => return None,
        }
    }
    Some(open)
}

/// The open marks of log files 0 and 1 in an image of the three blocks; `None` where less is there than is sealed.
fn sealed_in(alloc: Global, image: &mut MemoryVolume) -> Result<(Option<u64>, Option<u64>), Fail> {
    let first = open_marks(
        &content(alloc, image, 0)?,
        &content(alloc, image, 1)?,
        b"firstsecond",
    );
    let second = open_marks(
        &content(alloc, image, 2)?,
        &content(alloc, image, 3)?,
        b"third",
    );
    Ok((first, second))
}

/// How many of the images of a moment have less than what is sealed in them.
fn torn_at(alloc: Global, volume: &MemoryVolume, moment: u64) -> Result<u64, Fail>
    requires { moment ≤ ⟦<MemoryVolume as Volume>⟧.moment volume.now }
{
    let mut torn = 0u64;
    for choice in [Crash::Kept, Crash::Lost, Crash::Scrambled] {
        let mut image = volume.crash(moment, choice)?;
        let (first, second) = sealed_in(alloc, &mut image)?;
        if first.is_none() || second.is_none() {
            torn = torn.saturating_add(1);
        }
    }
    Ok(torn)
}

/// The same over all moments.
fn torn_images(alloc: Global, volume: &MemoryVolume) -> Result<u64, Fail> {
    let last = volume.moment();
    let mut torn = torn_at(alloc, volume, last)?;
    for moment in 0..last {
        torn = torn.saturating_add(torn_at(alloc, volume, moment)?);
    }
    Ok(torn)
}

#[test]
fn a_block_is_sealed_by_a_mark_and_its_file_rolled(rt: HostRuntime) -> Result<(), Fail> {
    let mut volume = MemoryVolume::new(rt.alloc())?;
    let mut log = fresh_log(&mut volume, 115)?;
    let first = log.next_place();
    let fresh = volume.crash(volume.moment(), Crash::Kept)?;
    let place = log.append_block(&mut volume, &ONE_ENTITY, 63)?;
    let appended = volume.crash(volume.moment(), Crash::Kept)?;
    log.seal(&mut volume)?;
    let sealed = volume.crash(volume.moment(), Crash::Kept)?;
    let next = log.next_place();
    log.roll(&mut volume)?;
    assert_eq!(rt;
        (first, place),
        (Address { file: 0, at: 0 }, Address { file: 0, at: 0 })
    );
    assert_eq!(rt; (next, log.file()), (Address { file: 1, at: 0 }, 1));
    let none = b"".as_slice();
    for (stage, files, bytes) in [
        (fresh, [0, 1].as_slice(), [none, &CLOSED, none, none]),
        (
            appended,
            [0, 1].as_slice(),
            [&ONE_ENTITY, &CLOSED, none, none],
        ),
        (
            sealed,
            [0, 1].as_slice(),
            [&ONE_ENTITY, &SEALED, none, none],
        ),
        (
            volume,
            [0, 1, 2, 3].as_slice(),
            [&ONE_ENTITY, &SEALED, none, &CLOSED],
        ),
    ] {
        let mut stage = stage;
        assert_eq!(rt; stage.files()?.as_slice(), files);
        for (file, want) in bytes.into_iter().enumerate() {
            assert_eq!(rt;
                content(rt.alloc(), &mut stage, file as u64)?.as_slice(),
                want
            );
        }
    }
    Ok(())
}

#[test]
fn a_file_is_rolled_where_it_has_reached_the_target(rt: HostRuntime) -> Result<(), Fail> {
    for (target, place) in [
        (6, Address { file: 0, at: 5 }),
        (5, Address { file: 1, at: 0 }),
    ] {
        let mut volume = MemoryVolume::new(rt.alloc())?;
        let mut log = fresh_log(&mut volume, target)?;
        log.append_block(&mut volume, b"first", 5)?;
        assert_eq!(rt; log.next_place(), place);
        assert_eq!(rt; log.append_block(&mut volume, b"second", 6)?, place);
        assert_eq!(rt; log.file(), place.file);
    }
    Ok(())
}

#[test]
fn the_last_file_is_rolled_to_and_not_rolled(rt: HostRuntime) -> Result<(), Fail> {
    let mut volume = MemoryVolume::new(rt.alloc())?;
    let mut log = last_but_one(&mut volume)?;
    let end = Address {
        file: 4294967295,
        at: 0,
    };
    assert_eq!(rt; log.next_place(), end);
    log.roll(&mut volume)?;
    let spent = LogError::NumbersSpent { last: 4294967295 };
    assert_eq!(rt; log.next_place(), end);
    assert_eq!(rt; log.append_block(&mut volume, b"block", 5), Err(spent));
    assert_eq!(rt; log.roll(&mut volume), Err(spent));
    // The pair made by hand took 5 calls that are recorded, that of the roll 8, and the refused calls none.
    assert_eq!(rt; volume.moment(), 13);
    for (file, want) in [
        (8589934588, b"".as_slice()),
        (8589934589, &CLOSED),
        (8589934590, b""),
        (8589934591, &CLOSED),
    ] {
        assert_eq!(rt;
            content(rt.alloc(), &mut volume, file)?.as_slice(),
            want,
            "file {file}"
        );
    }
    Ok(())
}

#[test]
fn a_log_is_resumed_with_any_numbers(rt: HostRuntime) {
    let last = u64::MAX;
    for (log, file, at) in [
        (
            Log::resume(u32::MAX, last, last, u32::MAX, 0),
            u32::MAX,
            last,
        ),
        (Log::resume(7, last, last, u32::MAX, last), 8, 0),
        (Log::resume(7, 9, 0, 1, 10), 7, 9),
    ] {
        assert_eq!(rt; log.next_place(), Address { file, at });
    }
}

#[test]
fn each_image_has_what_is_sealed_also_where_a_call_fails(rt: HostRuntime) -> Result<(), Fail> {
    // A fresh pair takes 9 calls, three appends take 3, three seals 18, and the pair of the roll 9: 39 in all.
    for call in 0..40 {
        let mut volume = MemoryVolume::failing(rt.alloc(), &[call])?;
        let written = write_three_blocks(&mut volume);
        let wanted = if call < 39 {
            Err(LogError::Device)
        } else {
            Ok(())
        };
        assert_eq!(rt; written, wanted, "call {call} fails");
        assert_eq!(rt; torn_images(rt.alloc(), &volume)?, 0, "call {call} fails");
    }
    Ok(())
}

#[test]
fn all_that_is_sealed_outlives_a_crash(rt: HostRuntime) -> Result<(), Fail> {
    let mut volume = MemoryVolume::new(rt.alloc())?;
    write_three_blocks(&mut volume)?;
    for choice in [Crash::Kept, Crash::Lost, Crash::Scrambled] {
        let mut image = volume.crash(volume.moment(), choice)?;
        assert_eq!(rt;
            sealed_in(rt.alloc(), &mut image)?,
            (Some(2), Some(1)),
            "{choice:?}"
        );
        assert_eq!(rt;
            content(rt.alloc(), &mut image, 0)?.as_slice(),
            b"firstsecond".as_slice()
        );
        assert_eq!(rt;
            content(rt.alloc(), &mut image, 2)?.as_slice(),
            b"third".as_slice()
        );
    }
    Ok(())
}
