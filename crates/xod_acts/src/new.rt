//! A new entity.
ghost use Rattle.std.specs.Prelude.{IsTrue};
ghost use Rattle.xod_base.specs.declared.query.Act.TheVariants as act;
ghost use Rattle.xod_base.specs.Rows.{has_name_length};
ghost use Rattle.xod_journal.specs.Changes.{expansion_of};
ghost use Rattle.xod_acts.specs.Acts.{new_plan, plan_at_number};
ghost use Rattle.xod_acts.specs.Telling.{Expands, Gives};

use crate::found::type_of;
use crate::making::{told, too_many};
use crate::plan::Plan;
use std::alloc::Global;
use xod_base::{EntityId, MOST_LOCALS, NameKind, StmtError, Text, TreeView};
use xod_journal::RowChange;
use xod_reader::Slot;

/// The plan of a new entity, by its type's number and next local number.
fn plan_at(
    alloc: Global,
    kind: &Text,
    slot: Slot,
    number: u32,
    next: u64,
) -> Result<Plan, StmtError>
    ensures { Gives (plan_at_number kind.now slot number next) result }
{
    if next >= MOST_LOCALS {
        return Err(StmtError::IdsSpent { kind: number });
    }
    let change = RowChange::AddEntity {
        id: EntityId {
            kind: number,
            local: next as u32,
        },
        kind: kind.try_clone(alloc)?,
    };
    Plan::empty(alloc).with_named(alloc, NameKind::Kinds, slot, kind, change)
}

/// The plan of a new entity, by where its type's name stands and the type's next number.
fn plan_new(alloc: Global, kind: &Text, found: (Slot, u64)) -> Result<Plan, StmtError>
    ensures { Gives (new_plan kind.now found) result }
{
    let (slot, next) = found;
    match slot {
        Slot::Listed(number) | Slot::Free(number) => plan_at(alloc, kind, slot, number, next),
        Slot::Full => Err(too_many(NameKind::Kinds)),
    }
}

/// Plans a new entity of a type.
pub fn expand_new<T: TreeView>(view: &mut T, alloc: Global, kind: &Text) -> Result<Plan, StmtError>
    requires { IsTrue (has_name_length kind.now) }
    ensures { Expands T.tells T.trees T.commit T.refs T.faults
        (λ rows. expansion_of rows (act.New kind.now)) view.old view.new result }
{
    match type_of(view, alloc, kind) {
        Ok(found) => plan_new(alloc, kind, found),
        Err(error) => Err(told(error)),
    }
}
