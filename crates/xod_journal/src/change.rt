//! One change of the rows of a store.
ghost use Rattle.std.specs.Prelude.{◌≡◌, IfOk};

use std::alloc::Global;
use xod_base::{EntityId, Listed, Memory, Text, Value};

/// What an act does to the rows, one change at a time. When a change fits and what it makes of the rows stands in
/// `specs/Changes.antt`.
#[derive(Debug, Drop)]
pub enum RowChange {
    /// A new entity of a type, whose name is listed with its first entity.
    AddEntity {
        id: EntityId,
        kind: Text,
    },
    /// An entity that goes; nothing belongs to it any more.
    RemoveEntity {
        id: EntityId,
    },
    /// A property's value before and after; `None` where there is none.
    Prop {
        id: EntityId,
        name: Text,
        old: Option<Value>,
        new: Option<Value>,
    },
    /// A new link from an entity to another one.
    LinkAdd {
        source: EntityId,
        link: Text,
        target: EntityId,
    },
    /// A link that goes.
    LinkDel {
        source: EntityId,
        link: Text,
        target: EntityId,
    },
}

/// A list of changes, each of which is made after those before it.
pub type ChangeList = Listed<RowChange>;

/// A value that may be absent, once more.
fn copy_value(alloc: Global, value: &Option<Value>) -> Result<Option<Value>, Memory>
    ensures { IfOk result (λ copied. copied ≡ value.now) }
{
    match value {
        None => Ok(None),
        Some(value) => Ok(Some(value.try_clone(alloc)?)),
    }
}

impl RowChange {
    /// The same change once more.
    pub fn try_clone(&self, alloc: Global) -> Result<RowChange, Memory>
        ensures { IfOk result (λ change. change ≡ self.now) }
    {
        match self {
            RowChange::AddEntity { id, kind } => Ok(RowChange::AddEntity {
                id: *id,
                kind: kind.try_clone(alloc)?,
            }),
            RowChange::RemoveEntity { id } => Ok(RowChange::RemoveEntity { id: *id }),
            RowChange::Prop { id, name, old, new } => Ok(RowChange::Prop {
                id: *id,
                name: name.try_clone(alloc)?,
                old: copy_value(alloc, old)?,
                new: copy_value(alloc, new)?,
            }),
            RowChange::LinkAdd {
                source,
                link,
                target,
            } => Ok(RowChange::LinkAdd {
                source: *source,
                link: link.try_clone(alloc)?,
                target: *target,
            }),
            RowChange::LinkDel {
                source,
                link,
                target,
            } => Ok(RowChange::LinkDel {
                source: *source,
                link: link.try_clone(alloc)?,
                target: *target,
            }),
        }
    }
}

/// The same changes once more.
pub fn copy_changes(alloc: Global, changes: &[RowChange]) -> Result<ChangeList, Memory>
    ensures { IfOk result (λ copied. copied ≡ changes.now) }
{
    let mut copied = ChangeList::new(alloc);
    for change in changes {
        copied.push(change.try_clone(alloc)?)?;
    }
    Ok(copied)
}
