//! The volume in memory: its calls, those of them that are planned to fail, leases beside a file that changes, and what
//! a crash leaves.
use super::files::{eight_from, is_there, length_of};
use std::alloc::Global;
use std::test::Fail;
use xod_base::Failed;
use xod_volume::{Crash, Lease, MemoryLease, MemoryVolume, Volume, VolumeError};

/// One call on a file.
#[derive(Drop)]
enum Step {
    Create(u64),
    Append(u64, &'static [u8]),
    WriteAt(u64, u64, &'static [u8]),
    Cut(u64, u64),
    Sync(u64),
    Read(u64),
    /// Lends the file, reads the lease, and takes it back.
    Lend(u64),
    Remove(u64),
}

fn create(volume: &mut MemoryVolume, file: u64) -> bool {
    match is_there(volume, file) {
        Ok(false) => volume.create(file).is_ok(),
        _ => false,
    }
}

fn append(volume: &mut MemoryVolume, file: u64, bytes: &[u8]) -> bool {
    match length_of(volume, file) {
        Some(_) => volume.append(file, bytes).is_ok(),
        None => false,
    }
}

fn write_at(volume: &mut MemoryVolume, file: u64, at: u64, bytes: &[u8]) -> bool {
    match length_of(volume, file) {
        Some(length) if at <= length && bytes.len() as u64 <= length - at => {
            volume.write_at(file, at, bytes).is_ok()
        }
        _ => false,
    }
}

fn cut(volume: &mut MemoryVolume, file: u64, kept: u64) -> bool {
    match length_of(volume, file) {
        Some(length) if kept <= length => volume.cut(file, kept).is_ok(),
        _ => false,
    }
}

fn sync(volume: &mut MemoryVolume, file: u64) -> bool {
    match length_of(volume, file) {
        Some(_) => volume.sync(file).is_ok(),
        None => false,
    }
}

fn lend(volume: &mut MemoryVolume, file: u64) -> Result<MemoryLease, VolumeError> {
    match length_of(volume, file) {
        Some(_) => volume.lend(&[file]),
        None => Err(VolumeError::Failed),
    }
}

fn lend_and_read(volume: &mut MemoryVolume, file: u64) -> bool {
    let Ok(mut lease) = lend(volume, file) else {
        return false;
    };
    let read = lease.read(file, 0, &mut [0; 1]);
    volume.take_back(lease);
    read.is_ok()
}

fn remove(volume: &mut MemoryVolume, file: u64) -> bool {
    match length_of(volume, file) {
        Some(_) if !volume.held(file) => volume.remove(file).is_ok(),
        _ => false,
    }
}

/// Takes a step, and says whether it was allowed and succeeded. It first asks whether the file is there, in one call of
/// the volume, and how long it is where that is to be so, in one more.
fn take(volume: &mut MemoryVolume, step: &Step) -> bool {
    match step {
        Step::Create(file) => create(volume, *file),
        Step::Append(file, bytes) => append(volume, *file, bytes),
        Step::WriteAt(file, at, bytes) => write_at(volume, *file, *at, bytes),
        Step::Cut(file, kept) => cut(volume, *file, *kept),
        Step::Sync(file) => sync(volume, *file),
        Step::Read(file) => eight_from(volume, *file, 0).is_some(),
        Step::Lend(file) => lend_and_read(volume, *file),
        Step::Remove(file) => remove(volume, *file),
    }
}

/// Takes steps, up to the first that fails, and says whether there was none.
fn take_all(volume: &mut MemoryVolume, steps: &[Step]) -> bool {
    for step in steps {
        if !take(volume, step) {
            return false;
        }
    }
    true
}

/// Takes steps, each once more where it fails, and gives the numbers of those that failed.
fn retaken(alloc: Global, volume: &mut MemoryVolume, steps: &[Step]) -> Result<Vec<usize>, Fail> {
    let mut failed = Vec::new(alloc);
    for (number, step) in steps.iter().enumerate() {
        if !take(volume, step) {
            failed.push(number)?;
            if !take(volume, step) {
                return Err(Fail::from("a step failed twice"));
            }
        }
    }
    Ok(failed)
}

/// What a lease of file 1 gives from a place on, where steps were taken beside it. It has nothing of file 2.
fn lent_beside(volume: &mut MemoryVolume, steps: &[Step], at: u64) -> Option<([u8; 8], usize)> {
    let Ok(mut lease) = lend(volume, 1) else {
        return None;
    };
    let all = take_all(volume, steps);
    let mut out = [0; 8];
    let read = lease.read(1, at, &mut out);
    let other = lease.read(2, at, &mut [0; 1]);
    volume.take_back(lease);
    match (read, other) {
        (Ok(count), Ok(0)) if all => Some((out, count)),
        _ => None,
    }
}

#[test]
fn each_call_does_its_work(rt: HostRuntime) -> Result<(), Fail> {
    let mut volume = MemoryVolume::new(rt.alloc())?;
    let steps = [
        Step::Create(7),
        Step::Create(3),
        Step::Append(7, b"abc"),
        Step::WriteAt(7, 1, b"XY"),
        Step::Cut(7, 2),
        Step::Sync(7),
        Step::Read(7),
        Step::Lend(7),
        Step::Remove(3),
    ];
    assert!(rt; take_all(&mut volume, &steps));
    assert_eq!(rt; volume.files()?.as_slice(), [7].as_slice());
    assert_eq!(rt;
        eight_from(&mut volume, 7, 0),
        Some((*b"aX\0\0\0\0\0\0", 2))
    );
    assert_eq!(rt; volume.moment(), 7);
    assert_eq!(rt; volume.faults(), 0);
    Ok(())
}

#[test]
fn just_the_planned_calls_fail(rt: HostRuntime) -> Result<(), Fail> {
    let steps = [
        Step::Create(1),
        Step::Append(1, b"ab"),
        Step::WriteAt(1, 0, b"x"),
        Step::Cut(1, 1),
        Step::Sync(1),
        Step::Read(1),
        Step::Lend(1),
        Step::Remove(1),
    ];
    // The step that each call is of: two of the first, four of a lease, and three of each other.
    let step_of_call = [
        0, 0, 1, 1, 1, 2, 2, 2, 3, 3, 3, 4, 4, 4, 5, 5, 5, 6, 6, 6, 6, 7, 7, 7,
    ];
    for (call, step) in step_of_call.into_iter().enumerate() {
        let mut volume = MemoryVolume::failing(rt.alloc(), &[call as u64])?;
        let failed = retaken(rt.alloc(), &mut volume, &steps)?;
        assert_eq!(rt; failed.as_slice(), [step].as_slice(), "call {call} fails");
        assert_eq!(rt; volume.faults(), 1, "call {call} fails");
    }
    let mut volume = MemoryVolume::failing(rt.alloc(), &[24])?;
    assert!(rt; take_all(&mut volume, &steps));
    assert_eq!(rt; volume.faults(), 0);
    assert!(rt; volume.files().is_err());
    assert_eq!(rt; volume.faults(), 1);
    Ok(())
}

#[test]
fn a_failing_read_of_a_lease_counts_at_the_volume(rt: HostRuntime) -> Result<(), Fail> {
    // Two calls create the file, three append to it, and three lend it; the read of the lease is call 8, and of the
    // three behind it, which append again, the last one is call 11.
    let mut volume = MemoryVolume::failing(rt.alloc(), &[8, 11])?;
    assert!(rt; take_all(&mut volume, &[Step::Create(1), Step::Append(1, b"ab")]));
    let mut lease = lend(&mut volume, 1)?;
    let mut out = [0; 2];
    let read = lease.read(1, 0, &mut out);
    let before = volume.faults();
    volume.take_back(lease);
    assert_eq!(rt; read, Err(Failed));
    assert_eq!(rt; before, 0);
    assert_eq!(rt; volume.faults(), 1);
    assert!(rt; !take(&mut volume, &Step::Append(1, b"cd")));
    assert_eq!(rt; volume.faults(), 2);
    assert_eq!(rt; volume.moment(), 3);
    assert_eq!(rt;
        eight_from(&mut volume, 1, 0),
        Some((*b"ab\0\0\0\0\0\0", 2))
    );
    Ok(())
}

/// A lease of file 1 beside steps.
#[derive(Drop)]
struct Beside<'a> {
    before: &'a [Step],
    beside: &'a [Step],
    /// Where it is read, and the file after it.
    at: u64,
    lent: ([u8; 8], usize),
    left: ([u8; 8], usize),
    /// The pieces that the file has before and after.
    pieces: (usize, usize),
}

#[test]
fn a_lease_keeps_its_bytes_and_copies_none(rt: HostRuntime) -> Result<(), Fail> {
    let short = [Step::Create(1), Step::Append(1, b"ab")];
    let lent_once = [
        Step::Create(1),
        Step::Append(1, b"ab"),
        Step::Lend(1),
        Step::Append(1, b"cd"),
    ];
    let lent_after_each = [
        Step::Create(1),
        Step::Append(1, b"ab"),
        Step::Lend(1),
        Step::Append(1, b"cd"),
        Step::Lend(1),
        Step::Append(1, b"ef"),
        Step::Lend(1),
    ];
    let cut_into_a_piece = [
        Step::Create(1),
        Step::Append(1, b"abcd"),
        Step::Lend(1),
        Step::Append(1, b"xy"),
        Step::Cut(1, 2),
    ];
    let grown = [Step::Append(1, b"cd")];
    let cut_and_grown = [
        Step::Append(1, b"ef"),
        Step::Cut(1, 3),
        Step::Append(1, b"xy"),
    ];
    let grown_and_lent = [Step::Append(1, b"gh"), Step::Lend(1)];
    for case in [
        Beside {
            before: &short,
            beside: &grown,
            at: 0,
            lent: (*b"ab\0\0\0\0\0\0", 2),
            left: (*b"abcd\0\0\0\0", 4),
            pieces: (0, 1),
        },
        Beside {
            before: &lent_once,
            beside: &cut_and_grown,
            at: 1,
            lent: (*b"bcd\0\0\0\0\0", 3),
            left: (*b"bcxy\0\0\0\0", 4),
            pieces: (1, 1),
        },
        Beside {
            before: &lent_once,
            beside: &cut_and_grown,
            at: 3,
            lent: (*b"d\0\0\0\0\0\0\0", 1),
            left: (*b"xy\0\0\0\0\0\0", 2),
            pieces: (1, 1),
        },
        Beside {
            before: &lent_after_each,
            beside: &grown_and_lent,
            at: 0,
            lent: (*b"abcdef\0\0", 6),
            left: (*b"abcdefgh", 8),
            pieces: (1, 2),
        },
        Beside {
            before: &lent_after_each,
            beside: &grown_and_lent,
            at: 5,
            lent: (*b"f\0\0\0\0\0\0\0", 1),
            left: (*b"fgh\0\0\0\0\0", 3),
            pieces: (1, 2),
        },
        Beside {
            before: &cut_into_a_piece,
            beside: &grown,
            at: 0,
            lent: (*b"ab\0\0\0\0\0\0", 2),
            left: (*b"abcd\0\0\0\0", 4),
            pieces: (1, 1),
        },
    ] {
        let mut volume = MemoryVolume::new(rt.alloc())?;
        assert!(rt; take_all(&mut volume, case.before));
        let pieces = volume.pieces(1);
        let lent = lent_beside(&mut volume, case.beside, case.at);
        assert_eq!(rt; lent, Some(case.lent));
        assert_eq!(rt; eight_from(&mut volume, 1, case.at), Some(case.left));
        assert_eq!(rt; (pieces, volume.pieces(1)), case.pieces);
    }
    Ok(())
}

#[test]
fn a_write_into_bytes_that_a_lease_has_fails(rt: HostRuntime) -> Result<(), Fail> {
    let mut volume = MemoryVolume::new(rt.alloc())?;
    assert!(rt; take_all(&mut volume, &[Step::Create(1), Step::Append(1, b"ab")]));
    let mut lease = lend(&mut volume, 1)?;
    let grown = take_all(
        &mut volume,
        &[
            Step::Append(1, b"cd"),
            Step::Lend(1),
            Step::Append(1, b"ef"),
        ],
    );
    let over_lent = take(&mut volume, &Step::WriteAt(1, 1, b"VWXYZ"));
    let after = (volume.moment(), volume.faults());
    let unchanged = eight_from(&mut volume, 1, 0);
    let behind_lent = take(&mut volume, &Step::WriteAt(1, 2, b"CDE"));
    let mut out = [0; 4];
    let lent = lease.read(1, 0, &mut out);
    volume.take_back(lease);
    assert!(rt; grown && behind_lent && !over_lent);
    assert_eq!(rt; after, (5, 1));
    assert_eq!(rt; unchanged, Some((*b"abcdef\0\0", 6)));
    assert_eq!(rt; (out, lent), (*b"ab\0\0", Ok(2)));
    assert_eq!(rt; eight_from(&mut volume, 1, 0), Some((*b"abCDEf\0\0", 6)));
    assert!(rt; take(&mut volume, &Step::WriteAt(1, 1, b"VWXYZ")));
    assert_eq!(rt; (volume.moment(), volume.faults()), (7, 1));
    assert_eq!(rt; eight_from(&mut volume, 1, 0), Some((*b"aVWXYZ\0\0", 6)));
    Ok(())
}

#[test]
fn of_two_leases_with_one_list_one_stays_out(rt: HostRuntime) -> Result<(), Fail> {
    let mut volume = MemoryVolume::new(rt.alloc())?;
    assert!(rt; take(&mut volume, &Step::Create(1)));
    let lease = lend(&mut volume, 1)?;
    let second = take(&mut volume, &Step::Lend(1));
    let held = volume.held(1);
    volume.take_back(lease);
    assert!(rt; second && held);
    assert!(rt; !volume.held(1));
    Ok(())
}

#[test]
fn a_crash_leaves_what_its_choice_says(rt: HostRuntime) -> Result<(), Fail> {
    let mut volume = MemoryVolume::new(rt.alloc())?;
    let steps = [
        Step::Create(1),
        Step::Append(1, b"ab"),
        Step::Sync(1),
        Step::Append(1, b"c"),
        Step::WriteAt(1, 0, b"x"),
        Step::Cut(1, 1),
        Step::Remove(1),
    ];
    assert!(rt; take_all(&mut volume, &steps));
    let none = None;
    let empty = Some(([0; 8], 0));
    let synced = Some((*b"ab\0\0\0\0\0\0", 2));
    // What is left at each moment, by each choice.
    for (moment, kept, lost, scrambled) in [
        (0, none, none, none),
        (1, empty, none, empty),
        (2, synced, none, Some((*b"\xff\xff\0\0\0\0\0\0", 2))),
        (3, synced, synced, synced),
        (
            4,
            Some((*b"abc\0\0\0\0\0", 3)),
            synced,
            Some((*b"ab\xff\0\0\0\0\0", 3)),
        ),
        (
            5,
            Some((*b"xbc\0\0\0\0\0", 3)),
            synced,
            Some((*b"\xffb\xff\0\0\0\0\0", 3)),
        ),
        (
            6,
            Some((*b"x\0\0\0\0\0\0\0", 1)),
            synced,
            Some((*b"\xffb\xff\0\0\0\0\0", 3)),
        ),
        (7, none, synced, none),
    ] {
        for (choice, left) in [
            (Crash::Kept, kept),
            (Crash::Lost, lost),
            (Crash::Scrambled, scrambled),
        ] {
            assert!(rt; moment <= volume.moment());
            let mut after = volume.crash(moment, choice)?;
            assert_eq!(rt;
                eight_from(&mut after, 1, 0),
                left,
                "at {moment}, {choice:?}"
            );
        }
    }
    Ok(())
}
