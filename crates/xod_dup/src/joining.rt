//! The joined key of a key and a value.
ghost use Rattle.std.specs.Prelude.{◌≡◌, IfOk};
ghost use Rattle.xod_dup.specs.Joining.{joined};

use std::alloc::Global;
use xod_base::{Bytes, Memory};

/// The key, and right behind it the value. Nothing stands between them: the key shows where it ends.
pub fn dup_key(alloc: Global, key: &[u8], value: &[u8]) -> Result<Bytes, Memory>
    ensures { IfOk result (λ bytes. bytes ≡ joined key.now value.now) }
{
    let mut bytes = Vec::with_capacity(alloc, key.len() + value.len())?;
    bytes.extend_from_slice(key)?;
    bytes.extend_from_slice(value)?;
    Ok(Bytes::from_vec(bytes))
}
