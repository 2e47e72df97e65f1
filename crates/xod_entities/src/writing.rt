//! Entities that are written.
ghost use Rattle.std.specs.Prelude.{◌≡◌, ◌++◌, OnOk, is_ok, if◌then◌else◌};
ghost use Rattle.xod_overlay.specs.Marks.{all_touching, touched};
ghost use Rattle.xod_tables.specs.Writes.{id_removals, id_writes};

use std::alloc::Global;
use xod_base::{EntityId, Memory};
use xod_keys::{entity_key, next_key, push_put, push_removed};
use xod_overlay::{Overlay, WriteList};
use xod_tables::{ENTITIES, NEXT};

/// Puts what a new entity writes behind other writes: its key, and one above its local number as its type's next number.
pub fn push_id(writes: &mut WriteList, alloc: Global, id: EntityId) -> Result<(), Memory>
    ensures { OnOk result (writes.new ≡ writes.old ++ id_writes id) }
{
    let next = u64::from(id.local) + 1;
    push_put(writes, alloc, ENTITIES, &entity_key(id), &[])?;
    push_put(writes, alloc, NEXT, &next_key(id.kind), &next.to_be_bytes())?;
    Ok(())
}

/// Puts what an entity that goes writes behind other writes.
pub fn push_id_gone(writes: &mut WriteList, alloc: Global, id: EntityId) -> Result<(), Memory>
    ensures { OnOk result (writes.new ≡ writes.old ++ id_removals id) }
{
    push_removed(writes, alloc, ENTITIES, &entity_key(id))?;
    Ok(())
}

/// Adds an entity, and sets its type's next number to one above its own. A refusal leaves the overlay as it was.
pub fn add_id(own: &mut Overlay, alloc: Global, id: EntityId) -> Result<(), Memory>
    ensures { touched own.new ≡ (if is_ok result then all_touching (touched own.old) (id_writes id) else touched own.old) }
{
    let mut writes = WriteList::new(alloc);
    push_id(&mut writes, alloc, id)?;
    own.write_all(alloc, writes)
}

/// Takes an entity away. A refusal leaves the overlay as it was.
pub fn remove_id(own: &mut Overlay, alloc: Global, id: EntityId) -> Result<(), Memory>
    ensures { touched own.new ≡ (if is_ok result then all_touching (touched own.old) (id_removals id) else touched own.old) }
{
    let mut writes = WriteList::new(alloc);
    push_id_gone(&mut writes, alloc, id)?;
    own.write_all(alloc, writes)
}
