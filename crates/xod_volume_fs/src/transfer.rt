//! Bytes between memory and a file of the system, whole, over as many calls as the system wants.
//!
//! A call that a signal interrupts is made again. One that moves no byte where some are due is a failure.
ghost use Rattle.std.specs.Prelude.{◌≤◌, IfOk, length};

use crate::outside::or_failed;
use std::alloc::Global;
use std::fs::File;
use std::io::ErrorKind;
use std::os::unix::fs::FileExt;
use xod_base::Memory;
use xod_volume::{Body, VolumeError};

/// How many bytes of a file are asked for in one call.
const CHUNK: usize = 65_536;

/// All bytes of a file.
pub fn read_all(alloc: Global, file: &File) -> Result<Body, VolumeError> {
    let length = or_failed(file.metadata())?.len();
    let mut chunk = zeroed(alloc)?;
    let mut body = Body::new(alloc);
    for _ in 0..u64::MAX {
        let due = length.saturating_sub(body.len());
        if due == 0 {
            return Ok(body);
        }
        let wanted = due.min(chunk.len() as u64) as usize;
        let (out, _) = chunk.split_at_mut(wanted);
        let count = read_some(file, body.len(), out)?;
        let (bytes, _) = out.split_at(count);
        body.append(bytes)?;
    }
    Err(VolumeError::Failed)
}

/// Room for the bytes of one call.
fn zeroed(alloc: Global) -> Result<Vec<u8>, Memory> {
    let mut chunk = Vec::new(alloc);
    chunk.resize(CHUNK, 0)?;
    Ok(chunk)
}

/// Fills the front of `out` from a place of the file on, and gives how many bytes those are: one at least.
fn read_some(file: &File, at: u64, out: &mut [u8]) -> Result<usize, VolumeError>
    ensures { IfOk result (λ count. count ≤ length out.new) }
{
    for _ in 0..u64::MAX {
        match file.read_at(out, at) {
            Ok(0) => return Err(VolumeError::Failed),
            Ok(count) => return Ok(count),
            Err(error) if error.kind() == ErrorKind::Interrupted => {}
            Err(_) => return Err(VolumeError::Failed),
        }
    }
    Err(VolumeError::Failed)
}

/// Writes all these bytes to the file from a place on. After a failure any part of them may stand there.
pub fn write_all(file: &File, at: u64, bytes: &[u8]) -> Result<(), VolumeError> {
    let mut done = 0;
    for _ in 0..u64::MAX {
        let Some((_, due)) = bytes.split_at_checked(done) else {
            return Err(VolumeError::Failed);
        };
        if due.is_empty() {
            return Ok(());
        }
        let count = write_some(file, at.saturating_add(done as u64), due)?;
        done = done.saturating_add(count);
    }
    Err(VolumeError::Failed)
}

/// Writes the front of some bytes to the file from a place on, and gives how many those are: one at least.
fn write_some(file: &File, at: u64, bytes: &[u8]) -> Result<usize, VolumeError> {
    for _ in 0..u64::MAX {
        match file.write_at(bytes, at) {
            Ok(0) => return Err(VolumeError::Failed),
            Ok(count) => return Ok(count),
            Err(error) if error.kind() == ErrorKind::Interrupted => {}
            Err(_) => return Err(VolumeError::Failed),
        }
    }
    Err(VolumeError::Failed)
}
