//! What a store refuses, and what it is afterwards.
use super::store::commit_next;
use std::alloc::Global;
use std::test::Fail;
use xod_base::Mode;
use xod_env::{Env, EnvError, FlushError, Flushed, Snapshot};
use xod_estxn::EntityTxn;
use xod_trial::{Given, TARGET, commit, content, make_acts, snapshot_of};
use xod_volume::{MemoryLease, MemoryVolume, Volume};

/// A transaction over a volume in memory.
type Txn = EntityTxn<Snapshot<MemoryLease>>;

/// A transaction on the newest commit, with these acts.
fn begun(env: &mut Env<MemoryVolume>, alloc: Global, acts: &[Given]) -> Result<Txn, FlushError> {
    let (snapshot, adapter) = snapshot_of(env, alloc)?;
    let mut txn = EntityTxn::new(alloc, snapshot, adapter, Mode::Ordinary);
    match make_acts(&mut txn, alloc, acts) {
        Ok(()) => Ok(txn),
        Err(cause) => {
            end(env, txn);
            Err(cause)
        }
    }
}

/// Gives a transaction up.
fn end(env: &mut Env<MemoryVolume>, txn: Txn) {
    let (snapshot, _) = txn.into_parts();
    env.unpin(snapshot);
}

/// Flushes a transaction that began on commit 0, where that is not the newest one any more.
fn flush_late(
    env: &mut Env<MemoryVolume>,
    alloc: Global,
    txn: &Txn,
) -> Option<Result<Flushed, FlushError>> {
    if env.version() == 0 {
        return None;
    }
    Some(env.flush(alloc, 0, txn.overlay()))
}

/// What a late flush of a transaction with these acts is answered, behind the first commit; and then one of a
/// transaction with the same acts that sees that commit.
fn judged(alloc: Global, acts: &[Given]) -> Result<[Result<Flushed, FlushError>; 2], Fail> {
    let volume = MemoryVolume::new(alloc)?;
    let Ok(mut env) = Env::open(alloc, volume, TARGET) else {
        return Err(Fail::from("not opened"));
    };
    let mut late = None;
    if let Ok(txn) = begun(&mut env, alloc, acts) {
        let _ = commit_next(&mut env, alloc);
        late = flush_late(&mut env, alloc, &txn);
        end(&mut env, txn);
    }
    let second = commit(&mut env, alloc, acts);
    let (_, closed) = env.close();
    closed?;
    let late = late.ok_or("no late flush")?;
    Ok([late, second])
}

#[test]
fn a_flush_conflicts_exactly_where_another_commit_came(rt: HostRuntime) -> Result<(), Fail> {
    let alloc = rt.alloc();
    let conflict = Err(FlushError::Conflict { base: 0, now: 1 });
    assert_eq!(rt;
        judged(alloc, &[Given::New("T")])?,
        [conflict, Ok(Flushed::Commit { version: 2 })]
    );
    assert_eq!(rt;
        judged(alloc, &[])?,
        [Ok(Flushed::Nothing), Ok(Flushed::Nothing)]
    );
    Ok(())
}

/// What a store answers whose second commit failed in a write.
#[derive(Clone, Copy, Debug, PartialEq, Eq)]
struct Broken {
    second: Result<Flushed, FlushError>,
    late: Option<Result<Flushed, FlushError>>,
    pinned: Option<EnvError>,
    synced: Result<(), EnvError>,
    closed: Result<(), EnvError>,
}

/// What is answered where the device fails in a call, with a snapshot held from before the second commit and a
/// transaction from before the first one; with the volume. `None` where there is no second commit to fail.
fn broken_at(alloc: Global, call: u64) -> Result<Option<(MemoryVolume, Broken)>, Fail> {
    let volume = MemoryVolume::failing(alloc, &[call])?;
    let Ok(mut env) = Env::open(alloc, volume, TARGET) else {
        return Ok(None);
    };
    let txn = begun(&mut env, alloc, &[Given::New("T")]);
    let first = commit(&mut env, alloc, &[Given::New("T")]);
    let held = env.pin(alloc);
    let second = commit(&mut env, alloc, &[Given::New("T")]);
    let late = match &txn {
        Ok(txn) => flush_late(&mut env, alloc, txn),
        Err(_) => None,
    };
    let pinned = match env.pin(alloc) {
        Ok(snapshot) => {
            env.unpin(snapshot);
            None
        }
        Err(error) => Some(error),
    };
    let synced = env.sync();
    if let Ok(txn) = txn {
        end(&mut env, txn);
    }
    if let Ok(snapshot) = held {
        env.unpin(snapshot);
    }
    let (volume, closed) = env.close();
    if first.is_err() || second != Err(FlushError::Device) || synced.is_ok() {
        return Ok(None);
    }
    Ok(Some((
        volume,
        Broken {
            second,
            late,
            pinned,
            synced,
            closed,
        },
    )))
}

#[test]
fn a_broken_store_gives_its_volume_back_unsealed(rt: HostRuntime) -> Result<(), Fail> {
    let alloc = rt.alloc();
    let wanted = Broken {
        second: Err(FlushError::Device),
        late: Some(Err(FlushError::Broken)),
        pinned: Some(EnvError::Broken),
        synced: Err(EnvError::Broken),
        closed: Err(EnvError::Broken),
    };
    let mut broken = 0u64;
    for call in 0..100u64 {
        if let Some((mut volume, answers)) = broken_at(alloc, call)? {
            broken = broken.saturating_add(1);
            assert_eq!(rt; answers, wanted, "call {call} fails");
            assert_eq!(rt;
                content(alloc, &mut volume, 1)?.as_slice(),
                [0; 13].as_slice()
            );
            assert!(rt; !volume.held(0));
            assert_eq!(rt; volume.faults(), 1);
        }
    }
    // The append is the one write of the second commit.
    assert_eq!(rt; broken, 1);
    Ok(())
}
