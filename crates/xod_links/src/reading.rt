//! Links that are read.
ghost use Rattle.std.specs.Prelude.{is_some, slice_get};
ghost use Rattle.std.specs.FinMap.{get};
ghost use Rattle.xod_base.specs.Views.{Answers, CountsFaults, KeepsView};
ghost use Rattle.xod_tables.specs.Keys.{link_key as link_bytes};
ghost use Rattle.xod_range.specs.Ranges.{in_range};
ghost use Rattle.xod_range.specs.Reads.{Reads};
ghost use Rattle.xod_keys.specs.Readings.{ends_at, first_id, last_id, links_at};

use std::alloc::Global;
use xod_base::{EntityId, IdList, Listed, ReadError, TreeView};
use xod_keys::{link_key, read_link};
use xod_range::{NOWHERE, Range};
use xod_tables::{BACK, LINKS};

/// Links of one entity, each with its number and the entity at its other end.
pub type NumberedLinks = Listed<(u32, EntityId)>;

/// The id with which the ends of links begin.
const FIRST_ID: EntityId = EntityId { kind: 0, local: 0 };

/// The highest id that there can be.
const LAST_ID: EntityId = EntityId {
    kind: u32::MAX,
    local: u32::MAX,
};

/// The entities at the other ends of an entity's links with a number, in a tree of links.
fn ends_in<T: TreeView>(
    view: &mut T,
    alloc: Global,
    tree: u8,
    id: EntityId,
    link: u32,
) -> Result<IdList, ReadError>
    ensures reads { Reads (T.tells view.old) (T.trees view.old tree) (ends_at id link) result }
    ensures counts { CountsFaults (T.faults view.old) (T.faults view.new) result }
    ensures keeps { KeepsView T.tells T.trees T.commit T.refs T.faults view.old view.new }
{
    let mut range = Range::new(
        alloc,
        tree,
        &link_key(id, link, FIRST_ID),
        &link_key(id, link, LAST_ID),
    )?;
    let mut ids = IdList::new(alloc);
    'walk: while let Some(pair) = range.step(view, alloc)? {
        let Some((_, end)) = read_link(pair.key.as_slice()) else {
            return Err(ReadError::Damaged(NOWHERE));
        };
        ids.push(end)?;
    }
    Ok(ids)
}

/// All links of an entity, in a tree of links.
fn links_of<T: TreeView>(
    view: &mut T,
    alloc: Global,
    tree: u8,
    id: EntityId,
) -> Result<NumberedLinks, ReadError>
    ensures reads { Reads (T.tells view.old) (T.trees view.old tree) (links_at id) result }
    ensures counts { CountsFaults (T.faults view.old) (T.faults view.new) result }
    ensures keeps { KeepsView T.tells T.trees T.commit T.refs T.faults view.old view.new }
{
    let mut range = Range::new(
        alloc,
        tree,
        &link_key(id, 0, FIRST_ID),
        &link_key(id, u32::MAX, LAST_ID),
    )?;
    let mut links = NumberedLinks::new(alloc);
    'walk: while let Some(pair) = range.step(view, alloc)? {
        let Some(link) = read_link(pair.key.as_slice()) else {
            return Err(ReadError::Damaged(NOWHERE));
        };
        links.push(link)?;
    }
    Ok(links)
}

/// Whether an entity is linked to another one.
pub fn linked<T: TreeView>(
    view: &mut T,
    alloc: Global,
    source: EntityId,
    link: u32,
    target: EntityId,
) -> Result<bool, ReadError>
    ensures answers { Answers (T.tells view.old) (T.trees view.old LINKS) (λ map. is_some (get map (link_bytes source link target))) result }
    ensures counts { CountsFaults (T.faults view.old) (T.faults view.new) result }
    ensures keeps { KeepsView T.tells T.trees T.commit T.refs T.faults view.old view.new }
{
    let key = link_key(source, link, target);
    match view.get(alloc, LINKS, &key)? {
        None => Ok(false),
        Some(_) => Ok(true),
    }
}

/// Whether an entity has a link with a number. It looks for the first one alone.
pub fn has_link<T: TreeView>(
    view: &mut T,
    alloc: Global,
    source: EntityId,
    link: u32,
) -> Result<bool, ReadError>
    ensures answers { Answers (T.tells view.old) (T.trees view.old LINKS)
        (λ map. is_some (slice_get (in_range (link_bytes source link first_id) (link_bytes source link last_id) map) 0)) result }
    ensures counts { CountsFaults (T.faults view.old) (T.faults view.new) result }
    ensures keeps { KeepsView T.tells T.trees T.commit T.refs T.faults view.old view.new }
{
    let mut range = Range::new(
        alloc,
        LINKS,
        &link_key(source, link, FIRST_ID),
        &link_key(source, link, LAST_ID),
    )?;
    match range.step(view, alloc)? {
        None => Ok(false),
        Some(_) => Ok(true),
    }
}

/// The targets of an entity's links with a number, rising.
pub fn targets_of<T: TreeView>(
    view: &mut T,
    alloc: Global,
    source: EntityId,
    link: u32,
) -> Result<IdList, ReadError>
    ensures reads { Reads (T.tells view.old) (T.trees view.old LINKS) (ends_at source link) result }
    ensures counts { CountsFaults (T.faults view.old) (T.faults view.new) result }
    ensures keeps { KeepsView T.tells T.trees T.commit T.refs T.faults view.old view.new }
{
    ends_in(view, alloc, LINKS, source, link)
}

/// The sources of the links with a number to an entity, rising.
pub fn sources_of<T: TreeView>(
    view: &mut T,
    alloc: Global,
    target: EntityId,
    link: u32,
) -> Result<IdList, ReadError>
    ensures reads { Reads (T.tells view.old) (T.trees view.old BACK) (ends_at target link) result }
    ensures counts { CountsFaults (T.faults view.old) (T.faults view.new) result }
    ensures keeps { KeepsView T.tells T.trees T.commit T.refs T.faults view.old view.new }
{
    ends_in(view, alloc, BACK, target, link)
}

/// The links out of an entity, each with its number and its target, in the order of both.
pub fn links_out<T: TreeView>(
    view: &mut T,
    alloc: Global,
    source: EntityId,
) -> Result<NumberedLinks, ReadError>
    ensures reads { Reads (T.tells view.old) (T.trees view.old LINKS) (links_at source) result }
    ensures counts { CountsFaults (T.faults view.old) (T.faults view.new) result }
    ensures keeps { KeepsView T.tells T.trees T.commit T.refs T.faults view.old view.new }
{
    links_of(view, alloc, LINKS, source)
}

/// The links to an entity, each with its number and its source, in the order of both.
pub fn links_in<T: TreeView>(
    view: &mut T,
    alloc: Global,
    target: EntityId,
) -> Result<NumberedLinks, ReadError>
    ensures reads { Reads (T.tells view.old) (T.trees view.old BACK) (links_at target) result }
    ensures counts { CountsFaults (T.faults view.old) (T.faults view.new) result }
    ensures keeps { KeepsView T.tells T.trees T.commit T.refs T.faults view.old view.new }
{
    links_of(view, alloc, BACK, target)
}
