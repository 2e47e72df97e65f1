//! Plans that are made change by change.
ghost use Rattle.std.specs.Prelude.{◌≡◌, ◌++◌, OnOk};
ghost use Rattle.xod_base.specs.Rows.{text_length as bytes_of_text};
ghost use Rattle.xod_acts.specs.Making.{no_plan, numbered_writes, with_change, with_named};
ghost use Rattle.xod_acts.specs.Telling.{Gives, error_of};

use crate::plan::Plan;
use std::alloc::Global;
use xod_base::{MOST_NAMES, Memory, NameKind, ReadError, StmtError, Text, Value};
use xod_entities::{push_id, push_id_gone};
use xod_journal::{ChangeList, RowChange};
use xod_links::{push_link, push_link_gone};
use xod_names::push_name;
use xod_overlay::WriteList;
use xod_props::push_change;
use xod_reader::Slot;

/// A reader's error as that of a statement.
pub fn told(error: ReadError) -> StmtError
    ensures { result ≡ error_of error }
{
    match error {
        ReadError::Device => StmtError::Device,
        ReadError::Damaged(place) => StmtError::Damaged(place),
        ReadError::Memory => StmtError::Memory,
    }
}

/// That a new name finds no room.
pub fn too_many(kind: NameKind) -> StmtError
    ensures { result ≡ StmtError.TooMany kind MOST_NAMES }
{
    StmtError::TooMany {
        kind,
        limit: MOST_NAMES as u32,
    }
}

/// The bytes of a value that count against the limit of a text.
pub fn text_length(value: &Value) -> u64
    ensures { result ≡ bytes_of_text value.now }
{
    match value {
        Value::Text(text) => text.len() as u64,
        _ => 0,
    }
}

/// Puts what a change writes behind other writes. The number is that of the name in it; an entity's own change has none.
fn push_writes(
    writes: &mut WriteList,
    alloc: Global,
    number: u32,
    change: &RowChange,
) -> Result<(), Memory>
    ensures { OnOk result (writes.new ≡ writes.old ++ numbered_writes number change.now) }
{
    match change {
        RowChange::AddEntity { id, .. } => push_id(writes, alloc, *id),
        RowChange::RemoveEntity { id } => push_id_gone(writes, alloc, *id),
        RowChange::Prop { id, old, new, .. } => {
            push_change(writes, alloc, *id, number, old.as_ref(), new.as_ref())
        }
        RowChange::LinkAdd { source, target, .. } => {
            push_link(writes, alloc, *source, number, *target)
        }
        RowChange::LinkDel { source, target, .. } => {
            push_link_gone(writes, alloc, *source, number, *target)
        }
    }
}

impl Plan {
    /// The plan without changes.
    pub(crate) fn empty(alloc: Global) -> Plan
        ensures { result ≡ no_plan }
    {
        Plan {
            changes: ChangeList::new(alloc),
            writes: WriteList::new(alloc),
        }
    }

    /// Puts a change behind the others, and what it writes where the name in it has this number.
    pub(crate) fn push(
        &mut self,
        alloc: Global,
        number: u32,
        change: RowChange,
    ) -> Result<(), Memory>
        ensures { OnOk result (self.new ≡ with_change number change self.old) }
    {
        push_writes(&mut self.writes, alloc, number, &change)?;
        self.changes.push(change)?;
        Ok(())
    }

    /// The plan with a change behind the others whose name stands in a list, or comes to it.
    pub(crate) fn with_named(
        self,
        alloc: Global,
        list: NameKind,
        slot: Slot,
        name: &Text,
        change: RowChange,
    ) -> Result<Plan, StmtError>
        ensures { Gives (with_named list name.now slot change self) result }
    {
        let mut plan = self;
        match slot {
            Slot::Listed(number) => {
                plan.push(alloc, number, change)?;
                Ok(plan)
            }
            Slot::Free(number) => {
                push_name(&mut plan.writes, alloc, list, number, name)?;
                plan.push(alloc, number, change)?;
                Ok(plan)
            }
            Slot::Full => Err(too_many(list)),
        }
    }
}
