//! Links that are made or taken away.
ghost use Rattle.std.specs.Prelude.{◌≡◌, IfOk, IsTrue, not};
ghost use Rattle.std.specs.List.{filter};
ghost use Rattle.xod_base.specs.declared.query.Act.TheVariants as act;
ghost use Rattle.xod_base.specs.Rows.{has_name_length, same_id};
ghost use Rattle.xod_journal.specs.Changes.{expansion_of};
ghost use Rattle.xod_acts.specs.Acts.{behind_plan, gone_plan, link_plan, set_link_plan, unlink_all_plan, unlink_plan};
ghost use Rattle.xod_acts.specs.Telling.{Expands, Gives};

use crate::found::{join_of, joins_of, own_join_of, own_targets_of};
use crate::making::told;
use crate::plan::Plan;
use std::alloc::Global;
use xod_base::{EntityId, IdList, Memory, NameKind, StmtError, Text, TreeView};
use xod_journal::RowChange;
use xod_reader::Slot;

/// The plan of a link behind changes that are made before it.
fn plan_behind(
    alloc: Global,
    source: EntityId,
    link: &Text,
    target: EntityId,
    slot: Slot,
    is_linked: bool,
    before: Plan,
) -> Result<Plan, StmtError>
    ensures { Gives (behind_plan source link.now target slot is_linked before) result }
{
    if is_linked {
        return Ok(before);
    }
    let change = RowChange::LinkAdd {
        source,
        link: link.try_clone(alloc)?,
        target,
    };
    before.with_named(alloc, NameKind::Links, slot, link, change)
}

/// The ids of a list but for one.
fn others(alloc: Global, ids: &IdList, target: EntityId) -> Result<IdList, Memory>
    ensures { IfOk result (λ others. others ≡ filter (λ other. not (same_id other target)) ids.now) }
{
    let mut others = IdList::new(alloc);
    for number in ids.as_numbers() {
        let other = EntityId::of_number(*number);
        if other != target {
            others.push(other)?;
        }
    }
    Ok(others)
}

/// The plan in which links of an entity by a name with a number go.
fn plan_numbered(
    alloc: Global,
    source: EntityId,
    link: &Text,
    number: u32,
    targets: &IdList,
) -> Result<Plan, Memory>
    ensures { IfOk result (λ plan. plan ≡ gone_plan source link.now (Slot.Listed number) targets.now) }
{
    let mut plan = Plan::empty(alloc);
    for target in targets.as_numbers() {
        let change = RowChange::LinkDel {
            source,
            link: link.try_clone(alloc)?,
            target: EntityId::of_number(*target),
        };
        plan.push(alloc, number, change)?;
    }
    Ok(plan)
}

/// The plan in which links of an entity by a name go, by where the name stands.
fn plan_gone(
    alloc: Global,
    source: EntityId,
    link: &Text,
    slot: Slot,
    targets: &IdList,
) -> Result<Plan, Memory>
    ensures { IfOk result (λ plan. plan ≡ gone_plan source link.now slot targets.now) }
{
    match slot {
        Slot::Listed(number) => plan_numbered(alloc, source, link, number, targets),
        _ => Ok(Plan::empty(alloc)),
    }
}

/// The plan of a link, by where its name stands and whether it is there, or by the entity that is not there.
fn plan_link(
    alloc: Global,
    source: EntityId,
    link: &Text,
    target: EntityId,
    found: Result<(Slot, bool), EntityId>,
) -> Result<Plan, StmtError>
    ensures { Gives (link_plan source link.now target found) result }
{
    match found {
        Ok((slot, is_linked)) => {
            plan_behind(
                alloc,
                source,
                link,
                target,
                slot,
                is_linked,
                Plan::empty(alloc),
            )
        }
        Err(id) => Err(StmtError::NoEntity { id }),
    }
}

/// The plan of a link to one target alone.
fn plan_set_link(
    alloc: Global,
    source: EntityId,
    link: &Text,
    target: EntityId,
    found: Result<(Slot, bool, IdList), EntityId>,
) -> Result<Plan, StmtError>
    ensures { Gives (set_link_plan source link.now target found) result }
{
    match found {
        Ok((slot, is_linked, targets)) => {
            let gone = others(alloc, &targets, target)?;
            let before = plan_gone(alloc, source, link, slot, &gone)?;
            plan_behind(alloc, source, link, target, slot, is_linked, before)
        }
        Err(id) => Err(StmtError::NoEntity { id }),
    }
}

/// The plan of a link that is taken away; one whose name is not listed is not there.
fn plan_unlink(
    alloc: Global,
    source: EntityId,
    link: &Text,
    target: EntityId,
    found: Option<(Slot, bool)>,
) -> Result<Plan, StmtError>
    ensures { Gives (unlink_plan source link.now target found) result }
{
    let mut plan = Plan::empty(alloc);
    match found {
        None => Err(StmtError::NoEntity { id: source }),
        Some((Slot::Listed(number), true)) => {
            let change = RowChange::LinkDel {
                source,
                link: link.try_clone(alloc)?,
                target,
            };
            plan.push(alloc, number, change)?;
            Ok(plan)
        }
        Some(_) => Ok(plan),
    }
}

/// The plan of all links by a name that are taken away.
fn plan_unlink_all(
    alloc: Global,
    source: EntityId,
    link: &Text,
    found: Option<(Slot, IdList)>,
) -> Result<Plan, StmtError>
    ensures { Gives (unlink_all_plan source link.now found) result }
{
    let Some((slot, targets)) = found else {
        return Err(StmtError::NoEntity { id: source });
    };
    let plan = plan_gone(alloc, source, link, slot, &targets)?;
    Ok(plan)
}

/// Plans that an entity is linked to another one.
pub fn expand_link<T: TreeView>(
    view: &mut T,
    alloc: Global,
    source: EntityId,
    link: &Text,
    target: EntityId,
) -> Result<Plan, StmtError>
    requires { IsTrue (has_name_length link.now) }
    ensures { Expands T.tells T.trees T.commit T.refs T.faults
        (λ rows. expansion_of rows (act.Link source link.now target)) view.old view.new result }
{
    match join_of(view, alloc, source, link, target) {
        Ok(found) => plan_link(alloc, source, link, target, found),
        Err(error) => Err(told(error)),
    }
}

/// Plans that an entity is linked to another one, and to no other by this name.
pub fn expand_set_link<T: TreeView>(
    view: &mut T,
    alloc: Global,
    source: EntityId,
    link: &Text,
    target: EntityId,
) -> Result<Plan, StmtError>
    requires { IsTrue (has_name_length link.now) }
    ensures { Expands T.tells T.trees T.commit T.refs T.faults
        (λ rows. expansion_of rows (act.SetLink source link.now target)) view.old view.new result }
{
    match joins_of(view, alloc, source, link, target) {
        Ok(found) => plan_set_link(alloc, source, link, target, found),
        Err(error) => Err(told(error)),
    }
}

/// Plans that a link is taken away.
pub fn expand_unlink<T: TreeView>(
    view: &mut T,
    alloc: Global,
    source: EntityId,
    link: &Text,
    target: EntityId,
) -> Result<Plan, StmtError>
    ensures { Expands T.tells T.trees T.commit T.refs T.faults
        (λ rows. expansion_of rows (act.Unlink source link.now target)) view.old view.new result }
{
    match own_join_of(view, alloc, source, link, target) {
        Ok(found) => plan_unlink(alloc, source, link, target, found),
        Err(error) => Err(told(error)),
    }
}

/// Plans that all links of an entity by a name are taken away.
pub fn expand_unlink_all<T: TreeView>(
    view: &mut T,
    alloc: Global,
    source: EntityId,
    link: &Text,
) -> Result<Plan, StmtError>
    ensures { Expands T.tells T.trees T.commit T.refs T.faults
        (λ rows. expansion_of rows (act.UnlinkAll source link.now)) view.old view.new result }
{
    match own_targets_of(view, alloc, source, link) {
        Ok(found) => plan_unlink_all(alloc, source, link, found),
        Err(error) => Err(told(error)),
    }
}
