//! The links of each entity of a list.
ghost use Rattle.std.specs.Prelude.{◌≡◌, List, Some, ℕ};
ghost use Rattle.std.specs.List.{filter, flat_map};
ghost use Rattle.xod_base.specs.Evaluation.{has_link as has_in, ids_of as ids_in, rising, targets_of as targets_in};
ghost use Rattle.xod_base.specs.Rows.{number_of as number_in};
ghost use Rattle.xod_base.specs.Views.{CountsFaults, KeepsView};
ghost use Rattle.xod_iter.specs.Such.{ReadsSuch};
ghost use Rattle.xod_reader.specs.Told.{ReadsRows};

use std::alloc::Global;
use xod_base::{EntityId, IdList, NameKind, ReadError, Text, TreeView};
use xod_reader::{id_is_short, ids_of, number_of};
use xod_readings::links_of_rows_are_read;
use xod_sets::rising_of;

/// Whether an entity has a link with a number.
fn has_link<T: TreeView>(
    view: &mut T,
    alloc: Global,
    source: EntityId,
    link: u32,
) -> Result<bool, ReadError>
    ensures reads { (name : List ℕ) → ReadsSuch (λ rows. number_in rows.links name ≡ Some link) (T.tells view.old) (T.trees view.old)
        (λ rows. has_in rows name source) result }
    ensures counts { CountsFaults (T.faults view.old) (T.faults view.new) result }
    ensures keeps { KeepsView T.tells T.trees T.commit T.refs T.faults view.old view.new }
{
    id_is_short(source);
    links_of_rows_are_read();
    xod_links::has_link(view, alloc, source, link)
}

/// The ids of a list that have a link with a number, in the same order.
fn those_with_link<T: TreeView>(
    view: &mut T,
    alloc: Global,
    ids: &IdList,
    link: u32,
) -> Result<IdList, ReadError>
    ensures reads { (name : List ℕ) → ReadsSuch (λ rows. number_in rows.links name ≡ Some link) (T.tells view.old) (T.trees view.old)
        (λ rows. filter (has_in rows name) ids.now) result }
    ensures counts { CountsFaults (T.faults view.old) (T.faults view.new) result }
    ensures keeps { KeepsView T.tells T.trees T.commit T.refs T.faults view.old view.new }
{
    let mut found = IdList::new(alloc);
    for number in ids.as_numbers() {
        let id = EntityId::of_number(*number);
        let has_it = has_link(view, alloc, id, link)?;
        if has_it {
            found.push(id)?;
        }
    }
    Ok(found)
}

/// The entities of a type that have a link by a name, rising.
pub fn ids_with_link<T: TreeView>(
    view: &mut T,
    alloc: Global,
    kind: &Text,
    link: &Text,
) -> Result<IdList, ReadError>
    ensures reads { ReadsRows (T.tells view.old) (T.trees view.old) (λ rows. filter (has_in rows link.now) (ids_in rows kind.now)) result }
    ensures counts { CountsFaults (T.faults view.old) (T.faults view.new) result }
    ensures keeps { KeepsView T.tells T.trees T.commit T.refs T.faults view.old view.new }
{
    let Some(number) = number_of(view, alloc, NameKind::Links, link)? else {
        return Ok(IdList::new(alloc));
    };
    let ids = ids_of(view, alloc, kind)?;
    those_with_link(view, alloc, &ids, number)
}

/// The targets of an entity's links with a number, rising.
fn targets_of<T: TreeView>(
    view: &mut T,
    alloc: Global,
    source: EntityId,
    link: u32,
) -> Result<IdList, ReadError>
    ensures reads { (name : List ℕ) → ReadsSuch (λ rows. number_in rows.links name ≡ Some link) (T.tells view.old) (T.trees view.old)
        (λ rows. targets_in rows name source) result }
    ensures counts { CountsFaults (T.faults view.old) (T.faults view.new) result }
    ensures keeps { KeepsView T.tells T.trees T.commit T.refs T.faults view.old view.new }
{
    id_is_short(source);
    links_of_rows_are_read();
    xod_links::targets_of(view, alloc, source, link)
}

/// The targets of the links with a number of each id of a list, one entity's behind the other's.
fn targets_of_each<T: TreeView>(
    view: &mut T,
    alloc: Global,
    ids: &IdList,
    link: u32,
) -> Result<IdList, ReadError>
    ensures reads { (name : List ℕ) → ReadsSuch (λ rows. number_in rows.links name ≡ Some link) (T.tells view.old) (T.trees view.old)
        (λ rows. flat_map (targets_in rows name) ids.now) result }
    ensures counts { CountsFaults (T.faults view.old) (T.faults view.new) result }
    ensures keeps { KeepsView T.tells T.trees T.commit T.refs T.faults view.old view.new }
{
    let mut found = IdList::new(alloc);
    for number in ids.as_numbers() {
        let targets = targets_of(view, alloc, EntityId::of_number(*number), link)?;
        found.append(&targets)?;
    }
    Ok(found)
}

/// The targets of the links by a name of the ids of a list, each once, rising.
pub fn targets_of_all<T: TreeView>(
    view: &mut T,
    alloc: Global,
    link: &Text,
    ids: &IdList,
) -> Result<IdList, ReadError>
    ensures reads { ReadsRows (T.tells view.old) (T.trees view.old) (λ rows. rising (flat_map (targets_in rows link.now) ids.now)) result }
    ensures counts { CountsFaults (T.faults view.old) (T.faults view.new) result }
    ensures keeps { KeepsView T.tells T.trees T.commit T.refs T.faults view.old view.new }
{
    let Some(number) = number_of(view, alloc, NameKind::Links, link)? else {
        return Ok(IdList::new(alloc));
    };
    let found = targets_of_each(view, alloc, ids, number)?;
    Ok(rising_of(found))
}
