//! A store over real files.
use super::seen::{Seen, look};
use super::store::commit_next;
use std::alloc::Global;
use std::fs;
use std::rt::Files;
use std::test::Fail;
use xod_env::{Env, FlushError, Flushed};
use xod_trial::TARGET;
use xod_volume_fs::FolderVolume;

const FOLDER: &str = "xod-env-test";

/// The body of a store at the last commit that there is, without a tree.
const LAST_COMMIT: [u8; 11] = [3, 1, 255, 255, 255, 255, 255, 255, 255, 255, 0];

/// Its mark, and the closed one behind it.
const LAST_SEALED: [u8; 26] = [
    0, 0, 0, 0, 0, 0, 0, 11, 0, 0, 0, 11, 1, //
    0, 0, 0, 0, 0, 0, 0, 0, 0, 0, 0, 0, 0,
];

/// Makes the folder anew, without files.
fn clear(rt: &(impl Files + Alloc)) -> Result<(), Fail> {
    if fs::exists(rt, FOLDER)? {
        fs::remove_dir_all(rt, FOLDER)?;
    }
    Ok(())
}

/// The answer to one more commit on the store in the folder, and to its close.
fn commit_once(rt: HostRuntime) -> Result<Result<Flushed, FlushError>, Fail> {
    let alloc = rt.alloc();
    let volume = FolderVolume::named(rt, FOLDER)?;
    let Ok(mut env) = Env::open(alloc, volume, TARGET) else {
        return Err(Fail::from("not opened"));
    };
    let flushed = commit_next(&mut env, alloc);
    let (_, closed) = env.close();
    closed?;
    Ok(flushed)
}

/// What is seen in the folder.
fn seen_in_folder(rt: HostRuntime) -> Result<Seen, Fail> {
    let volume = FolderVolume::named(rt, FOLDER)?;
    let (_, seen) = look(rt.alloc(), volume);
    Ok(seen)
}

#[test]
fn a_folder_keeps_a_store(rt: HostRuntime) -> Result<(), Fail> {
    clear(&rt)?;
    assert_eq!(rt; seen_in_folder(rt)?, Seen::Commit(0));
    for version in 1..=3u64 {
        assert_eq!(rt; commit_once(rt)?, Ok(Flushed::Commit { version }));
        assert_eq!(rt; seen_in_folder(rt)?, Seen::Commit(version as u8));
    }
    assert!(rt; fs::exists(&rt, "xod-env-test/4.log")?);
    clear(&rt)?;

    fs::create_dir(&rt, FOLDER)?;
    fs::write(&rt, "xod-env-test/0.log", LAST_COMMIT.as_slice())?;
    fs::write(&rt, "xod-env-test/1.log", LAST_SEALED.as_slice())?;
    let last = u64::MAX;
    assert_eq!(rt; commit_once(rt)?, Err(FlushError::NumbersSpent { last }));
    assert_eq!(rt;
        seen_in_folder(rt)?,
        Seen::Other {
            commit: last,
            pairs: 0
        }
    );
    clear(&rt)
}
