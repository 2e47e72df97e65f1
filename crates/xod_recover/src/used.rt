//! Which log file is used last.
ghost use Rattle.std.specs.Prelude.{◌≡◌, ◌<◌, ◌≤◌, ◌==◌, length, slice_index, Some, IfOk, OnOk, IsErrOf, IsSome, IsTrue};
ghost use Rattle.std.specs.List.{list_any};
ghost use Rattle.std.specs.FinMap.{get, keys};
ghost use Rattle.xod_base.specs.Causes.{Rose};
ghost use Rattle.xod_volume.specs.declared.volume.VolumeError.{VolumeError};
ghost use Rattle.xod_log.specs.Ends.{body_of, ends_of};
ghost use Rattle.xod_recover.specs.Opened.{greatest_used, log_file_of, used_at};
ghost use Rattle.xod_recover.specs.Reads.{OnlyReads};
ghost use Rattle.xod_recover.specs.Uses.{Finds};

use crate::device::read_whole;
use crate::ends::{Used, has_open_mark};
use std::alloc::Global;
use xod_volume::{Volume, VolumeError};

/// The volume file of a log file's ends.
pub fn ends_file(file: u32) -> u64
    ensures { result ≡ ends_of file }
{
    2 * u64::from(file) + 1
}

/// The log file whose body is a volume file.
pub fn log_file_of(number: u64) -> Option<u32>
    ensures { result ≡ log_file_of number }
{
    if number % 2 == 0 && number / 2 <= u64::from(u32::MAX) {
        Some((number / 2) as u32)
    } else {
        None
    }
}

/// Whether a volume file is listed.
pub fn lists(numbers: &[u64], file: u64) -> bool
    ensures { result ≡ list_any (λ other. other == file) numbers.now }
{
    numbers.contains(&file)
}

/// A log file that has a body, where it is used.
fn used_at<V: Volume>(
    alloc: Global,
    volume: &mut V,
    numbers: &[u64],
    file: u32,
) -> Result<Option<Used>, VolumeError>
    requires listed { IsTrue (V.tells volume.old) → numbers.now ≡ keys (V.files volume.old) }
    requires has_body { IsTrue (V.tells volume.old)
        → IsSome (get (V.files volume.old) (body_of file)) }
    ensures found { IsTrue (V.tells volume.old) → IfOk result
        (Finds (V.files volume.old) (used_at (V.files volume.old) (Some file))) }
    ensures failed { IsErrOf result VolumeError.Failed
        → Rose (V.faults volume.old) (V.faults volume.new) }
    ensures unfailed { OnOk result (V.faults volume.new ≡ V.faults volume.old) }
    ensures memory { IsErrOf result VolumeError.Memory
        → V.faults volume.new ≡ V.faults volume.old }
    ensures reads { OnlyReads V.tells V.files V.moment V.may_leave V.leases V.refs V.faults
        volume.old volume.new }
{
    let number = ends_file(file);
    if !lists(numbers, number) {
        return Ok(None);
    }
    let ends = read_whole(alloc, volume, number)?;
    if !has_open_mark(ends.as_slice()) {
        return Ok(None);
    }
    Ok(Some(Used { file, ends }))
}

/// The log file whose body a volume file is, where it is used.
fn used_by<V: Volume>(
    alloc: Global,
    volume: &mut V,
    numbers: &[u64],
    index: usize,
) -> Result<Option<Used>, VolumeError>
    requires within { index < length numbers.now }
    requires listed { IsTrue (V.tells volume.old) → numbers.now ≡ keys (V.files volume.old) }
    ensures found { IsTrue (V.tells volume.old) → IfOk result (Finds (V.files volume.old)
        (used_at (V.files volume.old) (log_file_of (slice_index numbers.now index)))) }
    ensures failed { IsErrOf result VolumeError.Failed
        → Rose (V.faults volume.old) (V.faults volume.new) }
    ensures unfailed { OnOk result (V.faults volume.new ≡ V.faults volume.old) }
    ensures memory { IsErrOf result VolumeError.Memory
        → V.faults volume.new ≡ V.faults volume.old }
    ensures reads { OnlyReads V.tells V.files V.moment V.may_leave V.leases V.refs V.faults
        volume.old volume.new }
{
    match log_file_of(numbers[index]) {
        None => Ok(None),
        Some(file) => used_at(alloc, volume, numbers, file),
    }
}

/// The log file that is used last, where one is. The volume files are listed by rising number.
pub fn find_used<V: Volume>(
    alloc: Global,
    volume: &mut V,
    numbers: &[u64],
) -> Result<Option<Used>, VolumeError>
    requires listed { IsTrue (V.tells volume.old) → numbers.now ≡ keys (V.files volume.old) }
    ensures found { IsTrue (V.tells volume.old) → IfOk result
        (Finds (V.files volume.old) (greatest_used (V.files volume.old))) }
    ensures failed { IsErrOf result VolumeError.Failed
        → Rose (V.faults volume.old) (V.faults volume.new) }
    ensures unfailed { OnOk result (V.faults volume.new ≡ V.faults volume.old) }
    ensures memory { IsErrOf result VolumeError.Memory
        → V.faults volume.new ≡ V.faults volume.old }
    ensures reads { OnlyReads V.tells V.files V.moment V.may_leave V.leases V.refs V.faults
        volume.old volume.new }
{
    let mut left = numbers.len();
    while left > 0 {
        left -= 1;
        let found = used_by(alloc, volume, numbers, left)?;
        if found.is_some() {
            return Ok(found);
        }
    }
    Ok(None)
}
