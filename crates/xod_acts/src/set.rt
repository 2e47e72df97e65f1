//! A property that is set or taken away.
ghost use Rattle.std.specs.Prelude.{◌≡◌, IsTrue, Some};
ghost use Rattle.xod_base.specs.declared.query.Act.TheVariants as act;
ghost use Rattle.xod_base.specs.Rows.{has_name_length};
ghost use Rattle.xod_journal.specs.Changes.{expansion_of, same_option};
ghost use Rattle.xod_acts.specs.Acts.{set_plan, unset_plan};
ghost use Rattle.xod_acts.specs.Telling.{Expands, Gives};

use crate::found::property_of;
use crate::making::{text_length, told};
use crate::plan::Plan;
use std::alloc::Global;
use xod_base::{EntityId, LONGEST_TEXT, NameKind, StmtError, Text, TreeView, Value};
use xod_journal::RowChange;
use xod_reader::Slot;

/// Whether a value is there and is this one, the case of texts included.
fn is_same(old: &Option<Value>, value: &Value) -> bool
    ensures { result ≡ same_option old.now (Some value.now) }
{
    match old {
        None => false,
        Some(old) => old.same(value),
    }
}

/// The plan of a property that is set, by where its name stands and its old value.
fn plan_set(
    alloc: Global,
    id: EntityId,
    prop: &Text,
    value: &Value,
    found: Option<(Slot, Option<Value>)>,
) -> Result<Plan, StmtError>
    ensures { Gives (set_plan id prop.now value.now found) result }
{
    let Some((slot, old)) = found else {
        return Err(StmtError::NoEntity { id });
    };
    let len = text_length(value);
    if len > LONGEST_TEXT {
        return Err(StmtError::TextTooLong { len });
    }
    if is_same(&old, value) {
        return Ok(Plan::empty(alloc));
    }
    let change = RowChange::Prop {
        id,
        name: prop.try_clone(alloc)?,
        old,
        new: Some(value.try_clone(alloc)?),
    };
    Plan::empty(alloc).with_named(alloc, NameKind::Props, slot, prop, change)
}

/// The plan of a property that is taken away, by where its name stands and its old value.
fn plan_unset(
    alloc: Global,
    id: EntityId,
    prop: &Text,
    found: Option<(Slot, Option<Value>)>,
) -> Result<Plan, StmtError>
    ensures { Gives (unset_plan id prop.now found) result }
{
    let mut plan = Plan::empty(alloc);
    match found {
        None => Err(StmtError::NoEntity { id }),
        Some((Slot::Listed(number), Some(value))) => {
            let change = RowChange::Prop {
                id,
                name: prop.try_clone(alloc)?,
                old: Some(value),
                new: None,
            };
            plan.push(alloc, number, change)?;
            Ok(plan)
        }
        Some(_) => Ok(plan),
    }
}

/// Plans that a property is set.
pub fn expand_set<T: TreeView>(
    view: &mut T,
    alloc: Global,
    id: EntityId,
    prop: &Text,
    value: &Value,
) -> Result<Plan, StmtError>
    requires { IsTrue (has_name_length prop.now) }
    ensures { Expands T.tells T.trees T.commit T.refs T.faults
        (λ rows. expansion_of rows (act.Set id prop.now value.now)) view.old view.new result }
{
    match property_of(view, alloc, id, prop) {
        Ok(found) => plan_set(alloc, id, prop, value, found),
        Err(error) => Err(told(error)),
    }
}

/// Plans that a property is taken away.
pub fn expand_unset<T: TreeView>(
    view: &mut T,
    alloc: Global,
    id: EntityId,
    prop: &Text,
) -> Result<Plan, StmtError>
    ensures { Expands T.tells T.trees T.commit T.refs T.faults
        (λ rows. expansion_of rows (act.Unset id prop.now)) view.old view.new result }
{
    match property_of(view, alloc, id, prop) {
        Ok(found) => plan_unset(alloc, id, prop, found),
        Err(error) => Err(told(error)),
    }
}
