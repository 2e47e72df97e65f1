//! Entities and next numbers that are read.
ghost use Rattle.std.specs.Prelude.{is_some};
ghost use Rattle.std.specs.FinMap.{get};
ghost use Rattle.xod_base.specs.Views.{Answers, CountsFaults, KeepsView};
ghost use Rattle.xod_tables.specs.Keys.{entity_key as entity_bytes};
ghost use Rattle.xod_range.specs.Reads.{Reads};
ghost use Rattle.xod_keys.specs.Readings.{ids_at, next_at};

use std::alloc::Global;
use xod_base::{EntityId, IdList, ReadError, TreeView};
use xod_keys::{entity_key, next_key, read_id, read_next};
use xod_range::{NOWHERE, Range};
use xod_tables::{ENTITIES, NEXT};

/// Whether an entity is there.
pub fn has<T: TreeView>(view: &mut T, alloc: Global, id: EntityId) -> Result<bool, ReadError>
    ensures answers { Answers (T.tells view.old) (T.trees view.old ENTITIES) (λ map. is_some (get map (entity_bytes id))) result }
    ensures counts { CountsFaults (T.faults view.old) (T.faults view.new) result }
    ensures keeps { KeepsView T.tells T.trees T.commit T.refs T.faults view.old view.new }
{
    let found = view.get(alloc, ENTITIES, &entity_key(id))?;
    Ok(found.is_some())
}

/// The next local number of a type, 0 where there is no such type.
pub fn next_local<T: TreeView>(view: &mut T, alloc: Global, kind: u32) -> Result<u64, ReadError>
    ensures reads { Reads (T.tells view.old) (T.trees view.old NEXT) (next_at kind) result }
    ensures counts { CountsFaults (T.faults view.old) (T.faults view.new) result }
    ensures keeps { KeepsView T.tells T.trees T.commit T.refs T.faults view.old view.new }
{
    let Some(bytes) = view.get(alloc, NEXT, &next_key(kind))? else {
        return Ok(0);
    };
    match read_next(bytes.as_slice()) {
        Some(number) => Ok(number),
        None => Err(ReadError::Damaged(NOWHERE)),
    }
}

/// The entities of a type, rising.
pub fn ids_of<T: TreeView>(view: &mut T, alloc: Global, kind: u32) -> Result<IdList, ReadError>
    ensures reads { Reads (T.tells view.old) (T.trees view.old ENTITIES) (ids_at kind) result }
    ensures counts { CountsFaults (T.faults view.old) (T.faults view.new) result }
    ensures keeps { KeepsView T.tells T.trees T.commit T.refs T.faults view.old view.new }
{
    let first = entity_key(EntityId { kind, local: 0 });
    let last = entity_key(EntityId {
        kind,
        local: u32::MAX,
    });
    let mut range = Range::new(alloc, ENTITIES, &first, &last)?;
    let mut ids = IdList::new(alloc);
    'walk: while let Some(pair) = range.step(view, alloc)? {
        match read_id(pair.key.as_slice()) {
            Some(id) => ids.push(id)?,
            None => return Err(ReadError::Damaged(NOWHERE)),
        }
    }
    Ok(ids)
}
