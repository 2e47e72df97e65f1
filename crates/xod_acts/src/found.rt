//! What an act has to know of the rows before it can be planned, read over any view.
ghost use Rattle.std.specs.Prelude.{◌≡◌, IfOk, IfSome, IsTrue, nat_le};
ghost use Rattle.xod_base.specs.Rows.{text_length as bytes_of_text};
ghost use Rattle.xod_journal.specs.Changes.{option_text_length};
ghost use Rattle.xod_acts.specs.Found.{IsShortProperty, absent_at, all_short, belongings_at, join_at, joins_at};
ghost use Rattle.xod_acts.specs.Found.{of_both, of_entity, property_at, slot_number, targets_at, type_at};
ghost use Rattle.xod_acts.specs.Telling.{Looks};

use crate::making::text_length;
use std::alloc::Global;
use xod_base::{EntityId, IdList, LONGEST_TEXT, NameKind, Place, ReadError, Text, TreeView, Value};
use xod_reader::{
    NamedLinks, NamedValue, NamedValues, Slot, has, linked, links_in, links_out, next_local,
    slot_of, targets_of, value_of, values_of,
};

/// Where bytes that no store has stand is not known here.
const NOWHERE: Place = Place { file: 0, at: 0 };

/// All that belongs to an entity.
#[derive(Debug, Drop)]
pub struct Belongings {
    pub values: NamedValues,
    pub links_out: NamedLinks,
    pub links_in: NamedLinks,
}

/// The number of a name by its slot, 0 where there is none.
fn number_of(slot: Slot) -> u32
    ensures { result ≡ slot_number slot }
{
    match slot {
        Slot::Listed(number) | Slot::Free(number) => number,
        Slot::Full => 0,
    }
}

/// The bytes of a text that may be absent.
fn length_of(value: &Option<Value>) -> u64
    ensures { result ≡ option_text_length value.now }
{
    match value {
        None => 0,
        Some(value) => text_length(value),
    }
}

/// Where a type's name stands, and the type's next local number.
pub fn type_of<T: TreeView>(
    view: &mut T,
    alloc: Global,
    kind: &Text,
) -> Result<(Slot, u64), ReadError>
    ensures { Looks T.tells T.trees T.commit T.refs T.faults
        (λ rows. type_at rows kind.now) view.old view.new result }
{
    let slot = slot_of(view, alloc, NameKind::Kinds, kind)?;
    let next = next_local(view, alloc, number_of(slot))?;
    Ok((slot, next))
}

/// Where a property's name stands, and an entity's value; `None` where there is no such entity. A text that is longer
/// than a property may be is damage.
pub fn property_of<T: TreeView>(
    view: &mut T,
    alloc: Global,
    id: EntityId,
    prop: &Text,
) -> Result<Option<(Slot, Option<Value>)>, ReadError>
    ensures looks { Looks T.tells T.trees T.commit T.refs T.faults
        (λ rows. property_at rows id prop.now) view.old view.new result }
    ensures short { IfOk result (λ found. IfSome found IsShortProperty) }
{
    if !has(view, alloc, id)? {
        return Ok(None);
    }
    let (slot, value) = value_of(view, alloc, id, prop)?;
    if length_of(&value) > LONGEST_TEXT {
        return Err(ReadError::Damaged(NOWHERE));
    }
    Ok(Some((slot, value)))
}

/// The first of two entities that is not there.
fn absent_of<T: TreeView>(
    view: &mut T,
    alloc: Global,
    source: EntityId,
    target: EntityId,
) -> Result<Option<EntityId>, ReadError>
    ensures { Looks T.tells T.trees T.commit T.refs T.faults
        (λ rows. absent_at rows source target) view.old view.new result }
{
    if !has(view, alloc, source)? {
        return Ok(Some(source));
    }
    if !has(view, alloc, target)? {
        return Ok(Some(target));
    }
    Ok(None)
}

/// Where a link's name stands, and whether an entity is linked to another one by it; the first of both that is not there.
pub fn join_of<T: TreeView>(
    view: &mut T,
    alloc: Global,
    source: EntityId,
    link: &Text,
    target: EntityId,
) -> Result<Result<(Slot, bool), EntityId>, ReadError>
    ensures { Looks T.tells T.trees T.commit T.refs T.faults
        (λ rows. of_both rows source target (join_at rows source link.now target)) view.old view.new result }
{
    if let Some(id) = absent_of(view, alloc, source, target)? {
        return Ok(Err(id));
    }
    let found = linked(view, alloc, source, link, target)?;
    Ok(Ok(found))
}

/// The same, and all targets of the first entity by this name.
pub fn joins_of<T: TreeView>(
    view: &mut T,
    alloc: Global,
    source: EntityId,
    link: &Text,
    target: EntityId,
) -> Result<Result<(Slot, bool, IdList), EntityId>, ReadError>
    ensures { Looks T.tells T.trees T.commit T.refs T.faults
        (λ rows. of_both rows source target (joins_at rows source link.now target)) view.old view.new result }
{
    if let Some(id) = absent_of(view, alloc, source, target)? {
        return Ok(Err(id));
    }
    let (_, is_linked) = linked(view, alloc, source, link, target)?;
    let (slot, targets) = targets_of(view, alloc, source, link)?;
    Ok(Ok((slot, is_linked, targets)))
}

/// Where a link's name stands, and whether an entity is linked to another one by it; `None` where the first is not there.
pub fn own_join_of<T: TreeView>(
    view: &mut T,
    alloc: Global,
    source: EntityId,
    link: &Text,
    target: EntityId,
) -> Result<Option<(Slot, bool)>, ReadError>
    ensures { Looks T.tells T.trees T.commit T.refs T.faults
        (λ rows. of_entity rows source (join_at rows source link.now target)) view.old view.new result }
{
    if !has(view, alloc, source)? {
        return Ok(None);
    }
    let found = linked(view, alloc, source, link, target)?;
    Ok(Some(found))
}

/// Where a link's name stands, and the targets of an entity's links by it; `None` where there is no such entity.
pub fn own_targets_of<T: TreeView>(
    view: &mut T,
    alloc: Global,
    source: EntityId,
    link: &Text,
) -> Result<Option<(Slot, IdList)>, ReadError>
    ensures { Looks T.tells T.trees T.commit T.refs T.faults
        (λ rows. of_entity rows source (targets_at rows source link.now)) view.old view.new result }
{
    if !has(view, alloc, source)? {
        return Ok(None);
    }
    let found = targets_of(view, alloc, source, link)?;
    Ok(Some(found))
}

/// Whether the text of a value is no longer than a property's may be.
fn is_short(part: &NamedValue) -> bool
    ensures { result ≡ nat_le (bytes_of_text part.now.value) LONGEST_TEXT }
{
    text_length(&part.value) <= LONGEST_TEXT
}

/// Whether no text among values is longer than a property's may be.
fn are_short(values: &[NamedValue]) -> bool
    ensures { result ≡ all_short values.now }
{
    values.iter().all(|part| is_short(part))
}

/// All that belongs to an entity; `None` where it is not there. A text that is longer than a property may be is damage.
pub fn belongings_of<T: TreeView>(
    view: &mut T,
    alloc: Global,
    id: EntityId,
) -> Result<Option<Belongings>, ReadError>
    ensures looks { Looks T.tells T.trees T.commit T.refs T.faults
        (λ rows. of_entity rows id (belongings_at rows id)) view.old view.new result }
    ensures short { IfOk result (λ found. IfSome found (λ parts. IsTrue (all_short parts.values))) }
{
    if !has(view, alloc, id)? {
        return Ok(None);
    }
    let values = values_of(view, alloc, id)?;
    if !are_short(values.as_slice()) {
        return Err(ReadError::Damaged(NOWHERE));
    }
    let links_out = links_out(view, alloc, id)?;
    let links_in = links_in(view, alloc, id)?;
    Ok(Some(Belongings {
        values,
        links_out,
        links_in,
    }))
}
