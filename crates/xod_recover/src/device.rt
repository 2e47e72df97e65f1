//! Bytes of a volume's files, whole or in part.
ghost use Rattle.std.specs.Prelude.{◌≡◌, length, take, drop, IfOk, OnOk, IsErrOf, IsSome, IsTrue};
ghost use Rattle.std.specs.FinMap.{get};
ghost use Rattle.xod_base.specs.Causes.{Rose};
ghost use Rattle.xod_volume.specs.Files.{bytes_of, size_of};
ghost use Rattle.xod_volume.specs.declared.volume.VolumeError.{VolumeError};
ghost use Rattle.xod_recover.specs.Reads.{OnlyReads};

use std::alloc::Global;
use xod_base::{Bytes, Memory};
use xod_volume::{Volume, VolumeError};

/// Room for so many bytes.
fn room(alloc: Global, count: usize) -> Result<Vec<u8>, Memory>
    ensures { IfOk result (λ bytes. length bytes.items ≡ count) }
{
    let bytes = vec![in alloc; 0; count]?;
    Ok(bytes)
}

/// Bytes of a file from a place on: so many, or as many as there are.
pub fn read_part<V: Volume>(
    alloc: Global,
    volume: &mut V,
    file: u64,
    at: u64,
    count: usize,
) -> Result<Bytes, VolumeError>
    requires exists { IsTrue (V.tells volume.old) → IsSome (get (V.files volume.old) file) }
    ensures bytes { IsTrue (V.tells volume.old) → IfOk result (λ bytes.
        bytes ≡ take count (drop at (bytes_of (V.files volume.old) file))) }
    ensures failed { IsErrOf result VolumeError.Failed
        → Rose (V.faults volume.old) (V.faults volume.new) }
    ensures unfailed { OnOk result (V.faults volume.new ≡ V.faults volume.old) }
    ensures memory { IsErrOf result VolumeError.Memory
        → V.faults volume.new ≡ V.faults volume.old }
    ensures reads { OnlyReads V.tells V.files V.moment V.may_leave V.leases V.refs V.faults
        volume.old volume.new }
{
    let mut bytes = room(alloc, count)?;
    match volume.read(file, at, &mut bytes) {
        Ok(filled) => {
            bytes.truncate(filled);
            Ok(Bytes::from_vec(bytes))
        }
        Err(_) => Err(VolumeError::Failed),
    }
}

/// How many bytes a file has.
pub fn size<V: Volume>(volume: &mut V, file: u64) -> Result<u64, VolumeError>
    requires exists { IsTrue (V.tells volume.old) → IsSome (get (V.files volume.old) file) }
    ensures size { IsTrue (V.tells volume.old) → IfOk result (λ n.
        n ≡ size_of (V.files volume.old) file) }
    ensures failed { IsErrOf result VolumeError.Failed
        → Rose (V.faults volume.old) (V.faults volume.new) }
    ensures unfailed { OnOk result (V.faults volume.new ≡ V.faults volume.old) }
    ensures memory { IsErrOf result VolumeError.Memory
        → V.faults volume.new ≡ V.faults volume.old }
    ensures reads { OnlyReads V.tells V.files V.moment V.may_leave V.leases V.refs V.faults
        volume.old volume.new }
{
    match volume.len(file) {
        Ok(length) => Ok(length),
        Err(_) => Err(VolumeError::Failed),
    }
}

/// The bytes of a file.
pub fn read_whole<V: Volume>(alloc: Global, volume: &mut V, file: u64) -> Result<Bytes, VolumeError>
    requires exists { IsTrue (V.tells volume.old) → IsSome (get (V.files volume.old) file) }
    ensures bytes { IsTrue (V.tells volume.old) → IfOk result (λ bytes.
        bytes ≡ bytes_of (V.files volume.old) file) }
    ensures failed { IsErrOf result VolumeError.Failed
        → Rose (V.faults volume.old) (V.faults volume.new) }
    ensures unfailed { OnOk result (V.faults volume.new ≡ V.faults volume.old) }
    ensures memory { IsErrOf result VolumeError.Memory
        → V.faults volume.new ≡ V.faults volume.old }
    ensures reads { OnlyReads V.tells V.files V.moment V.may_leave V.leases V.refs V.faults
        volume.old volume.new }
{
    let length = size(volume, file)?;
    read_part(alloc, volume, file, 0, length as usize)
}
