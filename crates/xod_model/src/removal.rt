//! The changes that take away what belongs to an entity, in their order.
ghost use Rattle.std.specs.Prelude.{◌≡◌, IfOk, None, Some, map, not};
ghost use Rattle.std.specs.List.{filter};
ghost use Rattle.xod_base.specs.Evaluation.{is_link_of};
ghost use Rattle.xod_base.specs.Rows.{same_id};
ghost use Rattle.xod_journal.specs.Changes.{link_gone, targets_gone as all_gone};
ghost use Rattle.xod_model.specs.Entries.{join_key, prop_entry};
ghost use Rattle.xod_model.specs.Gone.{is_on};

use crate::items::{Join, PropValue};
use std::alloc::Global;
use xod_base::{EntityId, IdList, Memory, Text};
use xod_journal::{ChangeList, RowChange};

/// Which links of an entity: those out of it, or those into it from others.
#[derive(Clone, Copy)]
pub enum Side {
    Out,
    In,
}

/// The properties of an entity go, by rising name.
pub fn props_gone(alloc: Global, props: &[PropValue], id: EntityId) -> Result<ChangeList, Memory>
    ensures { IfOk result (λ changes. changes ≡ map (λ cell. RowChange.Prop id cell.0.1 (Some cell.1) None)
        (filter (λ cell. same_id cell.0.0 id) (map prop_entry props.now))) }
{
    let mut changes = ChangeList::new(alloc);
    for prop in props {
        if prop.id == id {
            changes.push(RowChange::Prop {
                id,
                name: prop.name.try_clone(alloc)?,
                old: Some(prop.value.try_clone(alloc)?),
                new: None,
            })?;
        }
    }
    Ok(changes)
}

/// Whether a link is on a side of an entity.
fn is_on_side(join: &Join, side: Side, id: EntityId) -> bool
    ensures { result ≡ is_on side id (join_key join.now) }
{
    match side {
        Side::Out => join.source == id,
        Side::In => join.target == id && join.source != id,
    }
}

/// The links on a side of an entity go, by rising source, name and target.
pub fn joins_gone(
    alloc: Global,
    joins: &[Join],
    side: Side,
    id: EntityId,
) -> Result<ChangeList, Memory>
    ensures { IfOk result (λ changes.
        changes ≡ map link_gone (filter (is_on side id) (map join_key joins.now))) }
{
    let mut changes = ChangeList::new(alloc);
    for join in joins {
        if is_on_side(join, side, id) {
            changes.push(RowChange::LinkDel {
                source: join.source,
                link: join.link.try_clone(alloc)?,
                target: join.target,
            })?;
        }
    }
    Ok(changes)
}

/// Whether a link is one of an entity's by a name.
pub fn is_of(join: &Join, source: EntityId, link: &Text) -> bool
    ensures { result ≡ is_link_of source link.now (join_key join.now) }
{
    join.source == source && join.link.same(link)
}

/// The targets of an entity's links by a name, rising.
pub fn targets_of(
    alloc: Global,
    joins: &[Join],
    link: &Text,
    source: EntityId,
) -> Result<IdList, Memory>
    ensures { IfOk result (λ ids. ids
        ≡ map (λ key. key.1.1) (filter (is_link_of source link.now) (map join_key joins.now))) }
{
    let mut targets = IdList::new(alloc);
    for join in joins {
        if is_of(join, source, link) {
            targets.push(join.target)?;
        }
    }
    Ok(targets)
}

/// The ids of a list but for one.
pub fn others(alloc: Global, ids: &IdList, target: EntityId) -> Result<IdList, Memory>
    ensures { IfOk result (λ others. others ≡ filter (λ other. not (same_id other target)) ids.now) }
{
    let mut others = IdList::new(alloc);
    for number in ids.as_numbers() {
        let other = EntityId::of_number(*number);
        if other != target {
            others.push(other)?;
        }
    }
    Ok(others)
}

/// Links of an entity by a name go, by rising target.
pub fn targets_gone(
    alloc: Global,
    source: EntityId,
    link: &Text,
    targets: &IdList,
) -> Result<ChangeList, Memory>
    ensures { IfOk result (λ changes. changes ≡ all_gone source link.now targets.now) }
{
    let mut changes = ChangeList::new(alloc);
    for number in targets.as_numbers() {
        changes.push(RowChange::LinkDel {
            source,
            link: link.try_clone(alloc)?,
            target: EntityId::of_number(*number),
        })?;
    }
    Ok(changes)
}
