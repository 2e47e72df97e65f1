//! What is shown of an entity.
ghost use Rattle.std.specs.Prelude.{◌≡◌, IfOk, IsTrue, map};
ghost use Rattle.xod_base.specs.Rows.{RowsValue};
ghost use Rattle.xod_base.specs.Views.{CountsFaults as CountsReads, KeepsView};
ghost use Rattle.xod_journal.specs.Locals.{CountsFaults, IsExpected};
ghost use Rattle.xod_journal.specs.Shows.{links_of as links_in, props_of as props_in, shown_of};
ghost use Rattle.xod_reader.specs.Told.{ReadsRows};
ghost use Rattle.xod_tables.specs.Tables.{AreTables};
ghost use Rattle.xod_estxn.specs.Shows.{shown_in};

use crate::refusal::refusal;
use std::alloc::Global;
use xod_base::{
    EntityId, LinkList, Memory, NameKind, Place, PropList, ReadError, Shown, StmtError, TreeView,
};
use xod_reader::{NamedLink, NamedValue, has, links_out, name_of, values_of};

/// The properties without the numbers of their names.
fn shown_props(alloc: Global, values: Vec<NamedValue>) -> Result<PropList, Memory>
    ensures { IfOk result (λ props. props ≡ map (λ value. (value.name, value.value)) values.items) }
{
    let mut props = PropList::new(alloc);
    for value in values {
        props.push((value.name, value.value))?;
    }
    Ok(props)
}

/// The links without the numbers of their names.
fn shown_links(alloc: Global, ends: Vec<NamedLink>) -> Result<LinkList, Memory>
    ensures { IfOk result (λ links. links ≡ map (λ link. (link.name, link.end)) ends.items) }
{
    let mut links = LinkList::new(alloc);
    for link in ends {
        links.push((link.name, link.end))?;
    }
    Ok(links)
}

/// The properties of an entity, by rising name.
fn props_of<T: TreeView>(view: &mut T, alloc: Global, id: EntityId) -> Result<PropList, ReadError>
    ensures reads { ReadsRows (T.tells view.old) (T.trees view.old) (λ rows. props_in rows id) result }
    ensures counts { CountsReads (T.faults view.old) (T.faults view.new) result }
    ensures keeps { KeepsView T.tells T.trees T.commit T.refs T.faults view.old view.new }
{
    let values = values_of(view, alloc, id)?;
    let props = shown_props(alloc, values.into_vec())?;
    Ok(props)
}

/// The links out of an entity, by rising name, then target.
fn links_of<T: TreeView>(view: &mut T, alloc: Global, id: EntityId) -> Result<LinkList, ReadError>
    ensures reads { ReadsRows (T.tells view.old) (T.trees view.old) (λ rows. links_in rows id) result }
    ensures counts { CountsReads (T.faults view.old) (T.faults view.new) result }
    ensures keeps { KeepsView T.tells T.trees T.commit T.refs T.faults view.old view.new }
{
    let ends = links_out(view, alloc, id)?;
    let links = shown_links(alloc, ends.into_vec())?;
    Ok(links)
}

/// What belongs to an entity, and `None` exactly where it is not there.
fn read<T: TreeView>(view: &mut T, alloc: Global, id: EntityId) -> Result<Option<Shown>, ReadError>
    ensures reads { ReadsRows (T.tells view.old) (T.trees view.old) (λ rows. shown_in rows id) result }
    ensures counts { CountsReads (T.faults view.old) (T.faults view.new) result }
    ensures keeps { KeepsView T.tells T.trees T.commit T.refs T.faults view.old view.new }
{
    if !has(view, alloc, id)? {
        return Ok(None);
    }
    let kind = name_of(view, alloc, NameKind::Kinds, id.kind)?;
    let props = props_of(view, alloc, id)?;
    let links = links_of(view, alloc, id)?;
    match kind {
        Some(kind) => Ok(Some(Shown {
            id,
            kind,
            props,
            links,
        })),
        // An entity without a type is one of no rows.
        None => Err(ReadError::Damaged(Place { file: 0, at: 0 })),
    }
}

/// What belongs to an entity, or the refusal where it is not there.
pub(crate) fn show<T: TreeView>(
    view: &mut T,
    alloc: Global,
    id: EntityId,
) -> Result<Shown, StmtError>
    ensures shows { IsTrue (T.tells view.old) → (rows : RowsValue) → AreTables (T.trees view.old) rows → IsExpected (shown_of rows id) result }
    ensures counts { CountsFaults (T.faults view.old) (T.faults view.new) result }
    ensures keeps { KeepsView T.tells T.trees T.commit T.refs T.faults view.old view.new }
{
    match read(view, alloc, id) {
        Ok(Some(shown)) => Ok(shown),
        Ok(None) => Err(StmtError::NoEntity { id }),
        Err(error) => Err(refusal(error)),
    }
}
