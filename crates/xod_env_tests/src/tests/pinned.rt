//! A snapshot that is held while the store goes on.
use super::seen::{Seen, look, seen_in};
use super::store::commit_next;
use std::alloc::Global;
use std::test::Fail;
use xod_env::{Env, Snapshot};
use xod_trial::TARGET;
use xod_volume::{MemoryLease, MemoryVolume, Volume};

/// What a snapshot reads that the volume's store left out, and whether file 0 is held before and after it is taken back.
fn read_back(
    alloc: Global,
    volume: &mut MemoryVolume,
    mut snapshot: Snapshot<MemoryLease>,
) -> (Seen, bool, bool) {
    let commit = snapshot.version;
    let read = seen_in(alloc, &mut snapshot, commit);
    let before = volume.held(0);
    let Snapshot {
        lease,
        roots: _,
        version: _,
        pages: _,
    } = snapshot;
    volume.take_back(lease);
    match read {
        Ok(seen) => (seen, before, volume.held(0)),
        Err(_) => (Seen::Failed, before, volume.held(0)),
    }
}

/// What a snapshot of commit 1 reads that was held over two more commits, two rolls and the close; with the volume.
fn held_from_the_first(alloc: Global) -> Result<(MemoryVolume, (Seen, bool, bool)), Fail> {
    let volume = MemoryVolume::new(alloc)?;
    let Ok(mut env) = Env::open(alloc, volume, TARGET) else {
        return Err(Fail::from("not opened"));
    };
    let first = commit_next(&mut env, alloc);
    let pinned = env.pin(alloc);
    let second = commit_next(&mut env, alloc);
    let third = commit_next(&mut env, alloc);
    let current = env.current();
    let (mut volume, closed) = env.close();
    let read = match pinned {
        Ok(snapshot) => read_back(alloc, &mut volume, snapshot),
        Err(_) => (Seen::Failed, false, false),
    };
    if first.is_ok() && second.is_ok() && third.is_ok() && closed.is_ok() && current == 2 {
        Ok((volume, read))
    } else {
        Err(Fail::from("a call failed"))
    }
}

#[test]
fn a_pinned_snapshot_reads_as_at_its_pin(rt: HostRuntime) -> Result<(), Fail> {
    let alloc = rt.alloc();
    let (volume, read) = held_from_the_first(alloc)?;
    assert_eq!(rt; read, (Seen::Commit(1), true, false));
    let (_, now) = look(alloc, volume);
    assert_eq!(rt; now, Seen::Commit(3));
    Ok(())
}
