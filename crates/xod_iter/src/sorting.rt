//! Ids in the order of a property.
ghost use Rattle.std.specs.Prelude.{◌≡◌, IfOk, List, map, ℕ};
ghost use Rattle.std.specs.FinMap.{get};
ghost use Rattle.xod_base.specs.Evaluation.{key_at, sort_cmp, sorted_by};
ghost use Rattle.xod_base.specs.Rows.{number_of as number_in};
ghost use Rattle.xod_base.specs.Views.{CountsFaults, KeepsView};
ghost use Rattle.xod_forms.specs.Ranks.{rank_of};
ghost use Rattle.xod_iter.specs.Such.{ReadsSuch};
ghost use Rattle.xod_reader.specs.Told.{ReadsRows};

use std::alloc::Global;
use xod_base::{
    Bytes, Direction, EntityId, IdList, Listed, Memory, NameKind, ReadError, Text, TreeView, Value,
};
use xod_forms::{Ranked, sorted};
use xod_reader::{id_is_short, number_of};
use xod_readings::props_of_rows_are_read;

/// The key of a value that may be absent.
fn key_of(alloc: Global, value: &Option<Value>) -> Result<Option<Bytes>, Memory>
    ensures { IfOk result (λ key. key ≡ key_at value.now) }
{
    match value {
        None => Ok(None),
        Some(value) => Ok(Some(value.key_bytes(alloc)?)),
    }
}

/// The key of an entity's value of the property with a number, none where it has no value.
fn numbered_key<T: TreeView>(
    view: &mut T,
    alloc: Global,
    id: EntityId,
    prop: Option<u32>,
) -> Result<Option<Bytes>, ReadError>
    ensures reads { (name : List ℕ) → ReadsSuch (λ rows. number_in rows.props name ≡ prop) (T.tells view.old) (T.trees view.old)
        (λ rows. key_at (get rows.values (id, name))) result }
    ensures counts { CountsFaults (T.faults view.old) (T.faults view.new) result }
    ensures keeps { KeepsView T.tells T.trees T.commit T.refs T.faults view.old view.new }
{
    id_is_short(id);
    props_of_rows_are_read();
    match prop {
        None => Ok(None),
        Some(prop) => {
            let value = xod_props::value_of(view, alloc, id, prop)?;
            let key = key_of(alloc, &value)?;
            Ok(key)
        }
    }
}

/// The ids of a list with their keys, in the same order. The value of each is read once.
fn ranked<T: TreeView>(
    view: &mut T,
    alloc: Global,
    ids: &IdList,
    prop: Option<u32>,
) -> Result<Listed<Ranked>, ReadError>
    ensures reads { (name : List ℕ) → ReadsSuch (λ rows. number_in rows.props name ≡ prop) (T.tells view.old) (T.trees view.old)
        (λ rows. map (rank_of rows name) ids.now) result }
    ensures counts { CountsFaults (T.faults view.old) (T.faults view.new) result }
    ensures keeps { KeepsView T.tells T.trees T.commit T.refs T.faults view.old view.new }
{
    let mut ranked = Listed::new(alloc);
    for number in ids.as_numbers() {
        let id = EntityId::of_number(*number);
        let key = numbered_key(view, alloc, id, prop)?;
        ranked.push(Ranked { key, id })?;
    }
    Ok(ranked)
}

/// The ids of a list by a property; equal keys by rising id, ids without it last.
pub fn sorted_by_prop<T: TreeView>(
    view: &mut T,
    alloc: Global,
    prop: &Text,
    direction: Direction,
    ids: &IdList,
) -> Result<IdList, ReadError>
    ensures reads { ReadsRows (T.tells view.old) (T.trees view.old) (λ rows. sorted_by (sort_cmp rows prop.now direction) ids.now) result }
    ensures counts { CountsFaults (T.faults view.old) (T.faults view.new) result }
    ensures keeps { KeepsView T.tells T.trees T.commit T.refs T.faults view.old view.new }
{
    let number = number_of(view, alloc, NameKind::Props, prop)?;
    let ranked = ranked(view, alloc, ids, number)?;
    let found = sorted(alloc, direction, ranked.into_vec())?;
    Ok(found)
}
