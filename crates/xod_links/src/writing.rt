//! Links that are written.
ghost use Rattle.std.specs.Prelude.{◌≡◌, ◌++◌, OnOk, is_ok, if◌then◌else◌};
ghost use Rattle.xod_overlay.specs.Marks.{all_touching, touched};
ghost use Rattle.xod_tables.specs.Writes.{link_removals, link_writes};

use std::alloc::Global;
use xod_base::{EntityId, Memory};
use xod_keys::{link_key, push_put, push_removed};
use xod_overlay::{Overlay, WriteList};
use xod_tables::{BACK, LINKS};

/// Puts what a new link writes behind other writes, by its source and by its target.
pub fn push_link(
    writes: &mut WriteList,
    alloc: Global,
    source: EntityId,
    link: u32,
    target: EntityId,
) -> Result<(), Memory>
    ensures { OnOk result (writes.new ≡ writes.old ++ link_writes source link target) }
{
    push_put(writes, alloc, LINKS, &link_key(source, link, target), &[])?;
    push_put(writes, alloc, BACK, &link_key(target, link, source), &[])?;
    Ok(())
}

/// Puts what a link that goes writes behind other writes.
pub fn push_link_gone(
    writes: &mut WriteList,
    alloc: Global,
    source: EntityId,
    link: u32,
    target: EntityId,
) -> Result<(), Memory>
    ensures { OnOk result (writes.new ≡ writes.old ++ link_removals source link target) }
{
    push_removed(writes, alloc, LINKS, &link_key(source, link, target))?;
    push_removed(writes, alloc, BACK, &link_key(target, link, source))?;
    Ok(())
}

/// Links an entity to another one. A refusal leaves the overlay as it was.
pub fn add_link(
    own: &mut Overlay,
    alloc: Global,
    source: EntityId,
    link: u32,
    target: EntityId,
) -> Result<(), Memory>
    ensures { touched own.new ≡ (if is_ok result then all_touching (touched own.old) (link_writes source link target) else touched own.old) }
{
    let mut writes = WriteList::new(alloc);
    push_link(&mut writes, alloc, source, link, target)?;
    own.write_all(alloc, writes)
}

/// Takes a link away. A refusal leaves the overlay as it was.
pub fn remove_link(
    own: &mut Overlay,
    alloc: Global,
    source: EntityId,
    link: u32,
    target: EntityId,
) -> Result<(), Memory>
    ensures { touched own.new ≡ (if is_ok result then all_touching (touched own.old) (link_removals source link target) else touched own.old) }
{
    let mut writes = WriteList::new(alloc);
    push_link_gone(&mut writes, alloc, source, link, target)?;
    own.write_all(alloc, writes)
}
