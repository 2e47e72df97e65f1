//! Entities and next numbers.
ghost use Rattle.std.specs.Prelude.{is_some};
ghost use Rattle.std.specs.FinMap.{get};
ghost use Rattle.xod_base.specs.Evaluation.{ids_of as ids_in};
ghost use Rattle.xod_base.specs.Rows.{next_of};
ghost use Rattle.xod_base.specs.Views.{CountsFaults, KeepsView};
ghost use Rattle.xod_tables.specs.Keys.{IsShort};
ghost use Rattle.xod_reader.specs.Told.{ReadsRows};

use std::alloc::Global;
use xod_base::{EntityId, IdList, NameKind, ReadError, Text, TreeView};
use xod_readings::{entities_of_rows_are_read, names_of_rows_are_read};

/// Both numbers of an id fit in four bytes, as the type has it.
pub fn id_is_short(id: EntityId)
    ensures { IsShort id }
{}

/// Whether an entity is there.
pub fn has<T: TreeView>(view: &mut T, alloc: Global, id: EntityId) -> Result<bool, ReadError>
    ensures reads { ReadsRows (T.tells view.old) (T.trees view.old) (λ rows. is_some (get rows.ids id)) result }
    ensures counts { CountsFaults (T.faults view.old) (T.faults view.new) result }
    ensures keeps { KeepsView T.tells T.trees T.commit T.refs T.faults view.old view.new }
{
    id_is_short(id);
    entities_of_rows_are_read();
    xod_entities::has(view, alloc, id)
}

/// The next local number of a type, 0 where there is no such type.
pub fn next_local<T: TreeView>(view: &mut T, alloc: Global, kind: u32) -> Result<u64, ReadError>
    ensures reads { ReadsRows (T.tells view.old) (T.trees view.old) (λ rows. next_of rows.nexts kind) result }
    ensures counts { CountsFaults (T.faults view.old) (T.faults view.new) result }
    ensures keeps { KeepsView T.tells T.trees T.commit T.refs T.faults view.old view.new }
{
    entities_of_rows_are_read();
    xod_entities::next_local(view, alloc, kind)
}

/// The entities of a type, rising; none where there is no such type.
pub fn ids_of<T: TreeView>(view: &mut T, alloc: Global, kind: &Text) -> Result<IdList, ReadError>
    ensures reads { ReadsRows (T.tells view.old) (T.trees view.old) (λ rows. ids_in rows kind.now) result }
    ensures counts { CountsFaults (T.faults view.old) (T.faults view.new) result }
    ensures keeps { KeepsView T.tells T.trees T.commit T.refs T.faults view.old view.new }
{
    names_of_rows_are_read();
    entities_of_rows_are_read();
    match xod_names::number_of(view, alloc, NameKind::Kinds, kind)? {
        Some(number) => xod_entities::ids_of(view, alloc, number),
        None => Ok(IdList::new(alloc)),
    }
}
