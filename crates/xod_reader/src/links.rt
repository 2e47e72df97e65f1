//! Links.
ghost use Rattle.std.specs.Prelude.{◌≡◌, ◌==◌, IfOk};
ghost use Rattle.std.specs.List.{filter};
ghost use Rattle.xod_base.specs.Evaluation.{ids_of as ids_in, is_linked, targets_of as targets_in};
ghost use Rattle.xod_base.specs.Views.{CountsFaults, KeepsView};
ghost use Rattle.xod_reader.specs.Named.{named_sources, named_targets};
ghost use Rattle.xod_reader.specs.Slots.{slot_of as slot_in};
ghost use Rattle.xod_reader.specs.Told.{ReadsRows};

use crate::entities::id_is_short;
use crate::naming::name_links;
use crate::parts::NamedLinks;
use crate::slot::{Slot, number_of, slot_of};
use crate::sorting::{sort_sources, sort_targets, without_end};
use std::alloc::Global;
use xod_base::{EntityId, IdList, Memory, NameKind, ReadError, Text, TreeView};
use xod_readings::links_of_rows_are_read;

/// Where a link's name stands, and whether an entity is linked to another one by it.
pub fn linked<T: TreeView>(
    view: &mut T,
    alloc: Global,
    source: EntityId,
    link: &Text,
    target: EntityId,
) -> Result<(Slot, bool), ReadError>
    ensures reads { ReadsRows (T.tells view.old) (T.trees view.old) (λ rows. (slot_in rows.links link.now, is_linked rows link.now target source)) result }
    ensures counts { CountsFaults (T.faults view.old) (T.faults view.new) result }
    ensures keeps { KeepsView T.tells T.trees T.commit T.refs T.faults view.old view.new }
{
    id_is_short(source);
    id_is_short(target);
    links_of_rows_are_read();
    match slot_of(view, alloc, NameKind::Links, link)? {
        Slot::Listed(number) => {
            let is_linked = xod_links::linked(view, alloc, source, number, target)?;
            Ok((Slot::Listed(number), is_linked))
        }
        slot => Ok((slot, false)),
    }
}

/// Where a link's name stands, and the targets of an entity's links by it, rising.
pub fn targets_of<T: TreeView>(
    view: &mut T,
    alloc: Global,
    source: EntityId,
    link: &Text,
) -> Result<(Slot, IdList), ReadError>
    ensures reads { ReadsRows (T.tells view.old) (T.trees view.old) (λ rows. (slot_in rows.links link.now, targets_in rows link.now source)) result }
    ensures counts { CountsFaults (T.faults view.old) (T.faults view.new) result }
    ensures keeps { KeepsView T.tells T.trees T.commit T.refs T.faults view.old view.new }
{
    id_is_short(source);
    links_of_rows_are_read();
    match slot_of(view, alloc, NameKind::Links, link)? {
        Slot::Listed(number) => {
            let targets = xod_links::targets_of(view, alloc, source, number)?;
            Ok((Slot::Listed(number), targets))
        }
        slot => Ok((slot, IdList::new(alloc))),
    }
}

/// The links out of an entity, by rising name, then target.
pub fn links_out<T: TreeView>(
    view: &mut T,
    alloc: Global,
    source: EntityId,
) -> Result<NamedLinks, ReadError>
    ensures reads { ReadsRows (T.tells view.old) (T.trees view.old) (λ rows. named_targets rows source) result }
    ensures counts { CountsFaults (T.faults view.old) (T.faults view.new) result }
    ensures keeps { KeepsView T.tells T.trees T.commit T.refs T.faults view.old view.new }
{
    id_is_short(source);
    links_of_rows_are_read();
    let numbered = xod_links::links_out(view, alloc, source)?;
    let named = name_links(view, alloc, numbered)?;
    Ok(sort_targets(named))
}

/// The links to an entity from others, by rising source, then name.
pub fn links_in<T: TreeView>(
    view: &mut T,
    alloc: Global,
    target: EntityId,
) -> Result<NamedLinks, ReadError>
    ensures reads { ReadsRows (T.tells view.old) (T.trees view.old) (λ rows. named_sources rows target) result }
    ensures counts { CountsFaults (T.faults view.old) (T.faults view.new) result }
    ensures keeps { KeepsView T.tells T.trees T.commit T.refs T.faults view.old view.new }
{
    id_is_short(target);
    links_of_rows_are_read();
    let numbered = xod_links::links_in(view, alloc, target)?;
    let named = name_links(view, alloc, without_end(numbered, target))?;
    Ok(sort_sources(named))
}

/// The ids of a list whose type has a number, in the same order.
fn of_kind(alloc: Global, kind: u32, ids: &IdList) -> Result<IdList, Memory>
    ensures { IfOk result (λ found. found ≡ filter (λ id. id.kind == kind) ids.now) }
{
    let mut found = IdList::new(alloc);
    for number in ids.as_numbers() {
        let id = EntityId::of_number(*number);
        if id.kind == kind {
            found.push(id)?;
        }
    }
    Ok(found)
}

/// The entities of a type that are linked to an entity by a name, rising.
pub fn ids_linked<T: TreeView>(
    view: &mut T,
    alloc: Global,
    kind: &Text,
    link: &Text,
    target: EntityId,
) -> Result<IdList, ReadError>
    ensures reads { ReadsRows (T.tells view.old) (T.trees view.old) (λ rows. filter (is_linked rows link.now target) (ids_in rows kind.now)) result }
    ensures counts { CountsFaults (T.faults view.old) (T.faults view.new) result }
    ensures keeps { KeepsView T.tells T.trees T.commit T.refs T.faults view.old view.new }
{
    id_is_short(target);
    links_of_rows_are_read();
    let Some(kind) = number_of(view, alloc, NameKind::Kinds, kind)? else {
        return Ok(IdList::new(alloc));
    };
    let Some(link) = number_of(view, alloc, NameKind::Links, link)? else {
        return Ok(IdList::new(alloc));
    };
    let sources = xod_links::sources_of(view, alloc, target, link)?;
    let found = of_kind(alloc, kind, &sources)?;
    Ok(found)
}
