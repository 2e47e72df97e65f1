//! What a volume in memory has, asked by its calls. Each of these functions asks first whether the file is there.
ghost use Rattle.std.specs.Prelude.{◌≡◌, IfOk, IfSome, IsSome, is_some};
ghost use Rattle.std.specs.FinMap.{get};
ghost use Rattle.xod_volume.specs.Files.{size_of};

use std::alloc::Global;
use std::test::Fail;
use xod_volume::{MemoryVolume, Volume, VolumeError};

/// Whether a file is there. It takes one call of the volume.
#[tactic(auto, using(xod_log::proofs::CallerLemmas::listed))]
pub(crate) fn is_there(volume: &mut MemoryVolume, file: u64) -> Result<bool, VolumeError>
    ensures { IfOk result (λ there. there ≡ is_some (get (⟦<MemoryVolume as Volume>⟧.files volume.new) file)) }
{
    let numbers = volume.files()?;
    Ok(numbers.contains(&file))
}

/// How many bytes a file has; `None` where it is absent, or a call failed. It takes two calls of the volume.
pub(crate) fn length_of(volume: &mut MemoryVolume, file: u64) -> Option<u64>
    ensures there { IfSome result (λ _. IsSome (get (⟦<MemoryVolume as Volume>⟧.files volume.new) file)) }
    ensures length { IfSome result (λ length. length ≡ size_of (⟦<MemoryVolume as Volume>⟧.files volume.new) file) }
{
    match is_there(volume, file) {
        Ok(true) => volume.len(file).ok(),
        _ => None,
    }
}

/// The bytes of a file; none where it is absent.
pub(crate) fn content(
    alloc: Global,
    volume: &mut MemoryVolume,
    file: u64,
) -> Result<Vec<u8>, Fail> {
    let mut bytes = Vec::new(alloc);
    if let Some(length) = length_of(volume, file) {
        bytes.resize(length as usize, 0)?;
        volume.read(file, 0, &mut bytes)?;
    }
    Ok(bytes)
}

/// Bytes of a file from a place on, with how many it has from there; `None` where it is absent, or a call failed.
pub(crate) fn eight_from(
    volume: &mut MemoryVolume,
    file: u64,
    at: u64,
) -> Option<([u8; 8], usize)> {
    let _length = length_of(volume, file)?;
    let mut out = [0; 8];
    match volume.read(file, at, &mut out) {
        Ok(count) => Some((out, count)),
        Err(_) => None,
    }
}
