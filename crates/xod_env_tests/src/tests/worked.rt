//! The worked store of one entity, byte for byte.
use std::alloc::Global;
use std::test::Fail;
use xod_base::{ReadError, TreeView};
use xod_env::{Env, Flushed, Snapshot};
use xod_trial::{Given, ONE_ENTITY, SEALED, TARGET, commit, content};
use xod_volume::{MemoryLease, MemoryVolume, Volume};

/// The keys and values of the four leaves, of the trees 1 to 4.
const LEAVES: [(&[u8], &[u8]); 4] = [
    (&[1, 0, 0, 0, 0], b"T"),
    (b"\x01T", &[0, 0, 0, 0]),
    (&[0, 0, 0, 0], &[0, 0, 0, 0, 0, 0, 0, 1]),
    (&[0, 0, 0, 0, 0, 0, 0, 0], b""),
];

/// The volume that a store leaves which was opened empty, made this one commit, and was closed.
fn write_one_entity(alloc: Global) -> Result<MemoryVolume, Fail> {
    let volume = MemoryVolume::new(alloc)?;
    let Ok(mut env) = Env::open(alloc, volume, TARGET) else {
        return Err(Fail::from("no store was opened"));
    };
    let flushed = commit(&mut env, alloc, &[Given::New("T")]);
    let (volume, closed) = env.close();
    closed?;
    if flushed? == (Flushed::Commit { version: 1 }) {
        Ok(volume)
    } else {
        Err(Fail::from("no commit 1"))
    }
}

/// Whether a key has this value, and no key comes behind it.
fn has_leaf(
    alloc: Global,
    snapshot: &mut Snapshot<MemoryLease>,
    tree: u8,
    (key, want): (&[u8], &[u8]),
) -> Result<bool, ReadError> {
    let value = snapshot.get(alloc, tree, key)?;
    let next = snapshot.next(alloc, tree, key)?;
    Ok(match value {
        Some(value) => next.is_none() && value.as_slice() == want,
        None => false,
    })
}

/// Whether a snapshot has just the four leaves.
fn has_leaves(alloc: Global, snapshot: &mut Snapshot<MemoryLease>) -> bool {
    for (tree, leaf) in (1..5u8).zip(LEAVES) {
        match has_leaf(alloc, snapshot, tree, leaf) {
            Ok(true) => {}
            _ => return false,
        }
    }
    true
}

/// The commit that a volume opens at, and whether it has just the four leaves; with the volume, which is closed again.
pub(crate) fn reopened(
    alloc: Global,
    volume: MemoryVolume,
) -> Result<(MemoryVolume, u64, bool), Fail> {
    let Ok(mut env) = Env::open(alloc, volume, TARGET) else {
        return Err(Fail::from("not opened"));
    };
    let version = env.version();
    let has_all = match env.pin(alloc) {
        Ok(mut snapshot) => {
            let has_all = has_leaves(alloc, &mut snapshot);
            env.unpin(snapshot);
            has_all
        }
        Err(_) => false,
    };
    let (volume, closed) = env.close();
    closed?;
    Ok((volume, version, has_all))
}

#[test]
fn one_entity_takes_115_bytes_and_is_read_again(rt: HostRuntime) -> Result<(), Fail> {
    let alloc = rt.alloc();
    let mut volume = write_one_entity(alloc)?;
    assert_eq!(rt; volume.files()?.as_slice(), [0, 1].as_slice());
    assert!(rt; content(alloc, &mut volume, 0)?.as_slice() == ONE_ENTITY.as_slice());
    assert_eq!(rt;
        content(alloc, &mut volume, 1)?.as_slice(),
        SEALED.as_slice()
    );
    let (mut volume, version, has_all) = reopened(alloc, volume)?;
    assert_eq!(rt; version, 1);
    assert!(rt; has_all);
    assert!(rt; content(alloc, &mut volume, 0)?.as_slice() == ONE_ENTITY.as_slice());
    assert_eq!(rt;
        content(alloc, &mut volume, 1)?.as_slice(),
        SEALED.as_slice()
    );
    Ok(())
}
