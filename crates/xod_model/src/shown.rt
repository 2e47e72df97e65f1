//! What is shown of an entity: its type, its properties, its links.
ghost use Rattle.std.specs.Prelude.{◌≡◌, IfOk, [], map};
ghost use Rattle.std.specs.List.{filter};
ghost use Rattle.xod_base.specs.Rows.{same_id};
ghost use Rattle.xod_journal.specs.Shows.{name_at as name_in, shown_of};
ghost use Rattle.xod_model.specs.Entries.{join_key, prop_entry, rows_of};
ghost use Rattle.xod_model.specs.Refusals.{Tells};

use crate::items::{Join, PropValue};
use crate::lists::Lists;
use std::alloc::Global;
use xod_base::{EntityId, LinkList, Memory, PropList, Shown, StmtError, Text};

/// The text without bytes.
fn no_text(alloc: Global) -> Result<Text, Memory>
    ensures { IfOk result (λ text. text ≡ []) }
{
    match Text::from_bytes(alloc, b"")? {
        Some(text) => Ok(text),
        None => unreachable!(),
    }
}

/// The name at a place of a list, and no bytes past its end.
fn name_at(alloc: Global, names: &[Text], n: u32) -> Result<Text, Memory>
    ensures { IfOk result (λ name. name ≡ name_in names.now n) }
{
    let at = n as usize;
    if at < names.len() {
        let name = names[at].try_clone(alloc)?;
        Ok(name)
    } else {
        let name = no_text(alloc)?;
        Ok(name)
    }
}

/// The properties of an entity, by rising name.
fn shown_props(alloc: Global, props: &[PropValue], id: EntityId) -> Result<PropList, Memory>
    ensures { IfOk result (λ shown. shown ≡ map (λ cell. (cell.0.1, cell.1))
        (filter (λ cell. same_id cell.0.0 id) (map prop_entry props.now))) }
{
    let mut shown = PropList::new(alloc);
    for prop in props {
        if prop.id == id {
            shown.push((prop.name.try_clone(alloc)?, prop.value.try_clone(alloc)?))?;
        }
    }
    Ok(shown)
}

/// The links out of an entity, by rising name, then target.
fn shown_links(alloc: Global, joins: &[Join], id: EntityId) -> Result<LinkList, Memory>
    ensures { IfOk result (λ shown. shown ≡ map (λ link. (link.1.0, link.1.1))
        (filter (λ link. same_id link.0 id) (map join_key joins.now))) }
{
    let mut shown = LinkList::new(alloc);
    for join in joins {
        if join.source == id {
            shown.push((join.link.try_clone(alloc)?, join.target))?;
        }
    }
    Ok(shown)
}

impl Lists {
    /// What is shown of an entity; the refusal where it is not there.
    pub fn show(&self, alloc: Global, id: EntityId) -> Result<Shown, StmtError>
        ensures { Tells (shown_of (rows_of self.now) id) result }
    {
        if !self.has(id) {
            return Err(StmtError::NoEntity { id });
        }
        Ok(Shown {
            id,
            kind: name_at(alloc, &self.types, id.kind)?,
            props: shown_props(alloc, self.prop_values(), id)?,
            links: shown_links(alloc, self.joins(), id)?,
        })
    }
}
