//! Writes that are put behind others.
ghost use Rattle.std.specs.Prelude.{◌≡◌, ◌∷◌, [], ◌++◌, IfOk, OnOk};
ghost use Rattle.xod_tables.specs.Writes.{put, removed};

use std::alloc::Global;
use xod_base::{Bytes, Memory};
use xod_overlay::{Write, WriteList};

/// A copy of bytes.
fn copied(alloc: Global, bytes: &[u8]) -> Result<Bytes, Memory>
    ensures { IfOk result (λ copy. copy ≡ bytes.now) }
{
    Ok(Bytes::from_vec(Vec::from_slice(alloc, bytes)?))
}

/// Puts behind other writes that a key of a tree gets a value.
pub fn push_put(
    writes: &mut WriteList,
    alloc: Global,
    tree: u8,
    key: &[u8],
    value: &[u8],
) -> Result<(), Memory>
    ensures { OnOk result (writes.new ≡ writes.old ++ put tree key.now value.now ∷ []) }
{
    let key = copied(alloc, key)?;
    let value = Some(copied(alloc, value)?);
    writes.push(Write { tree, key, value })?;
    Ok(())
}

/// Puts behind other writes that a key of a tree goes.
pub fn push_removed(
    writes: &mut WriteList,
    alloc: Global,
    tree: u8,
    key: &[u8],
) -> Result<(), Memory>
    ensures { OnOk result (writes.new ≡ writes.old ++ removed tree key.now ∷ []) }
{
    let key = copied(alloc, key)?;
    let value = None;
    writes.push(Write { tree, key, value })?;
    Ok(())
}
