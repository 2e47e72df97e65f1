//! What a volume in memory has, asked and made by its calls. Each of these functions asks first whether the file is there.
ghost use Rattle.std.specs.Prelude.{◌≡◌, IfOk, IfSome, IsSome, is_some};
ghost use Rattle.std.specs.FinMap.{get};
ghost use Rattle.xod_volume.specs.Files.{size_of};

use std::alloc::Global;
use xod_volume::{MemoryVolume, Volume, VolumeError};

/// Whether a file is there.
#[tactic(auto, using(xod_log::proofs::CallerLemmas::listed))]
fn is_there(volume: &mut MemoryVolume, file: u64) -> Result<bool, VolumeError>
    ensures { IfOk result (λ there. there ≡ is_some (get (⟦<MemoryVolume as Volume>⟧.files volume.new) file)) }
{
    let numbers = volume.files()?;
    Ok(numbers.contains(&file))
}

/// How many bytes a file has; `None` where it is absent, or a call failed.
fn length_of(volume: &mut MemoryVolume, file: u64) -> Option<u64>
    ensures there { IfSome result (λ _. IsSome (get (⟦<MemoryVolume as Volume>⟧.files volume.new) file)) }
    ensures length { IfSome result (λ length. length ≡ size_of (⟦<MemoryVolume as Volume>⟧.files volume.new) file) }
{
    match is_there(volume, file) {
        Ok(true) => volume.len(file).ok(),
        _ => None,
    }
}

/// The bytes of a file; none where it is absent.
pub fn content(
    alloc: Global,
    volume: &mut MemoryVolume,
    file: u64,
) -> Result<Vec<u8>, VolumeError> {
    let mut bytes = Vec::new(alloc);
    if let Some(length) = length_of(volume, file) {
        if bytes.resize(length as usize, 0).is_err() {
            return Err(VolumeError::Memory);
        }
        if volume.read(file, 0, &mut bytes).is_err() {
            return Err(VolumeError::Failed);
        }
    }
    Ok(bytes)
}

/// Puts bytes behind those of a file, and says whether that succeeded.
fn append(volume: &mut MemoryVolume, file: u64, bytes: &[u8]) -> bool {
    match length_of(volume, file) {
        Some(_) => volume.append(file, bytes).is_ok(),
        None => false,
    }
}

/// Makes a file with these bytes, and says whether that succeeded.
fn put_file(volume: &mut MemoryVolume, file: u64, bytes: &[u8]) -> bool {
    match is_there(volume, file) {
        Ok(false) if volume.create(file).is_ok() => append(volume, file, bytes),
        _ => false,
    }
}

/// A volume with these bytes in its files 0 and 1, of which a file without bytes given is absent.
pub fn volume_with(
    alloc: Global,
    body: Option<&[u8]>,
    ends: Option<&[u8]>,
) -> Result<MemoryVolume, VolumeError> {
    let mut volume = MemoryVolume::new(alloc)?;
    if let Some(bytes) = body
        && !put_file(&mut volume, 0, bytes)
    {
        return Err(VolumeError::Failed);
    }
    if let Some(bytes) = ends
        && !put_file(&mut volume, 1, bytes)
    {
        return Err(VolumeError::Failed);
    }
    Ok(volume)
}
