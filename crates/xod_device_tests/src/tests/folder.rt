//! The volume over real files: one life of a folder, seen through the volume and from outside it.
use std::fs;
use std::process::Abort;
use std::rt::Files;
use std::test::Fail;
use xod_volume::{Lease, Volume, VolumeError};
use xod_volume_fs::FolderVolume;

type Folder = FolderVolume<HostRuntime>;

const FOLDER: &str = "xod-folder-test";

/// Eight bytes of a file from a place on, with how many it has from there; `None` where the call failed.
fn eight_from(volume: &mut Folder, file: u64, at: u64) -> Option<([u8; 8], usize)> {
    let mut out = [0; 8];
    match volume.read(file, at, &mut out) {
        Ok(count) => Some((out, count)),
        Err(_) => None,
    }
}

/// Removes a file that no lease has, and says whether it is gone.
fn remove(volume: &mut Folder, file: u64) -> bool {
    !volume.held(file) && volume.remove(file).is_ok()
}

/// What a lease of file 7 gives, where the file grows and is written over beside it, and whether all calls succeeded.
fn lent_beside(volume: &mut Folder) -> Option<([u8; 8], usize)> {
    let Ok(mut lease) = volume.lend(&[7]) else {
        return None;
    };
    let grown = volume.append(7, b"de");
    let written = volume.write_at(7, 0, b"Z");
    let held = volume.held(7);
    let mut out = [0; 8];
    let read = lease.read(7, 0, &mut out);
    let other = lease.read(3, 0, &mut [0; 1]);
    volume.take_back(lease);
    match (read, other) {
        (Ok(count), Ok(0)) if held && grown.is_ok() && written.is_ok() => Some((out, count)),
        _ => None,
    }
}

/// Names in the folder that are no files of the volume.
fn put_foreign_names(rt: &impl Files) -> Result<(), Fail> {
    fs::write(rt, "xod-folder-test/007.log", "seven")?;
    fs::write(rt, "xod-folder-test/+7.log", "seven")?;
    fs::write(rt, "xod-folder-test/8.txt", "eight")?;
    fs::create_dir(rt, "xod-folder-test/9.log")?;
    Ok(())
}

/// The first life: the folder is made by the first file, and left with file 7 alone.
fn first_life(rt: &(impl Files + Abort), volume: &mut Folder) -> Result<(), Fail> {
    assert!(rt; volume.files()?.is_empty());
    assert!(rt; !fs::exists(rt, FOLDER)?);
    volume.create(7)?;
    volume.create(3)?;
    put_foreign_names(rt)?;
    volume.append(7, b"abc")?;
    volume.write_at(7, 1, b"XY")?;
    assert_eq!(rt; eight_from(volume, 7, 0), Some((*b"aXY\0\0\0\0\0", 3)));
    assert_eq!(rt; lent_beside(volume), Some((*b"aXY\0\0\0\0\0", 3)));
    assert_eq!(rt; eight_from(volume, 7, 0), Some((*b"ZXYde\0\0\0", 5)));
    volume.cut(7, 4)?;
    volume.sync(7)?;
    assert!(rt; remove(volume, 3));
    assert_eq!(rt; volume.files()?.as_slice(), [7].as_slice());
    assert_eq!(rt; volume.len(7)?, 4);
    assert_eq!(rt; volume.faults(), 0);
    Ok(())
}

/// Calls that the volume refuses, each of which counts: on a file that is absent, past a file's end, and on one that is
/// there already.
fn refused(volume: &mut Folder) -> bool {
    volume.len(3).is_err()
        && volume.append(3, b"x") == Err(VolumeError::Failed)
        && volume.write_at(7, 4, b"x").is_err()
        && volume.cut(7, 5).is_err()
        && volume.create(7) == Err(VolumeError::Failed)
        && !remove(volume, 3)
}

#[test]
fn a_folder_keeps_its_files_and_is_locked(rt: HostRuntime) -> Result<(), Fail> {
    if fs::exists(&rt, FOLDER)? {
        fs::remove_dir_all(&rt, FOLDER)?;
    }
    let mut first = FolderVolume::named(rt, FOLDER)?;
    first_life(&rt, &mut first)?;
    assert!(rt; refused(&mut first));
    assert_eq!(rt; first.faults(), 6);

    let mut second = FolderVolume::named(rt, FOLDER)?;
    assert_eq!(rt; second.create(5), Err(VolumeError::Failed));
    assert_eq!(rt; second.faults(), 1);
    drop(first);
    assert_eq!(rt; second.files()?.as_slice(), [7].as_slice());
    assert_eq!(rt; eight_from(&mut second, 7, 1), Some((*b"XYd\0\0\0\0\0", 3)));
    assert_eq!(rt; second.faults(), 1);
    drop(second);

    assert_eq!(rt;
        fs::read(&rt, "xod-folder-test/7.log")?.as_slice(),
        b"ZXYd".as_slice()
    );
    assert_eq!(rt;
        fs::read(&rt, "xod-folder-test/007.log")?.as_slice(),
        b"seven".as_slice()
    );
    assert!(rt; !fs::exists(&rt, "xod-folder-test/3.log")?);
    fs::remove_dir_all(&rt, FOLDER)?;
    Ok(())
}
