//! What an act changes: the changes in their order, or the first reason to refuse it.
//!
//! The order of refusals and of changes stands in `xod_journal`, in `specs/Changes.antt`. Nothing is changed here.
ghost use Rattle.std.specs.Prelude.{◌≡◌, ◌++◌, ◌∷◌, ◌≤◌, Err, IfOk, Ok, Some, [], if◌then◌else◌, length, not};
ghost use Rattle.xod_base.specs.Rows.{text_length as bytes_of_text};
ghost use Rattle.xod_journal.specs.Changes.{act_answer, expansion_of, has_room as has_room_test, link_behind as link_behind_of, links_in_gone, links_out_gone, props_gone as gone_props};
ghost use Rattle.xod_model.specs.Entries.{rows_of};
ghost use Rattle.xod_model.specs.Refusals.{Tells};

use crate::lists::Lists;
use crate::names::{has_room, kind_number, next_of};
use crate::removal::{Side, joins_gone, others, props_gone, targets_gone, targets_of};
use std::alloc::Global;
use xod_base::{
    Act, ActAnswer, EntityId, LONGEST_TEXT, MOST_LOCALS, MOST_NAMES, Memory, NameKind, StmtError,
    Text, Value,
};
use xod_journal::{ChangeList, RowChange};

/// The bytes of a value that count against the limit of a text.
fn text_length(value: &Value) -> u64
    ensures { result ≡ bytes_of_text value.now }
{
    match value {
        Value::Text(text) => text.len() as u64,
        _ => 0,
    }
}

/// A list of one change.
fn one(alloc: Global, change: RowChange) -> Result<ChangeList, Memory>
    ensures { IfOk result (λ changes. changes ≡ change ∷ []) }
{
    let mut changes = ChangeList::new(alloc);
    changes.push(change)?;
    Ok(changes)
}

/// That a new name finds no room.
fn too_many(kind: NameKind) -> StmtError
    ensures { result ≡ StmtError.TooMany kind MOST_NAMES }
{
    StmtError::TooMany {
        kind,
        limit: MOST_NAMES as u32,
    }
}

impl Lists {
    /// The changes of an act, or the first reason to refuse it.
    pub fn expand(&self, alloc: Global, act: &Act) -> Result<ChangeList, StmtError>
        requires { length (rows_of self.now).types ≤ MOST_NAMES }
        ensures { Tells (expansion_of (rows_of self.now) act.now) result }
    {
        match act {
            Act::New { kind } => self.expand_new(alloc, kind),
            Act::Delete { id } => self.expand_delete(alloc, *id),
            Act::Set { id, prop, value } => self.expand_set(alloc, *id, prop, value),
            Act::Unset { id, prop } => self.expand_unset(alloc, *id, prop),
            Act::Link {
                source,
                link,
                target,
            } => self.expand_link(alloc, *source, link, *target),
            Act::SetLink {
                source,
                link,
                target,
            } => self.expand_set_link(alloc, *source, link, *target),
            Act::Unlink {
                source,
                link,
                target,
            } => self.expand_unlink(alloc, *source, link, *target),
            Act::UnlinkAll { source, link } => self.expand_unlink_all(alloc, *source, link),
        }
    }

    /// A new entity of a type.
    fn expand_new(&self, alloc: Global, kind: &Text) -> Result<ChangeList, StmtError>
        requires { length (rows_of self.now).types ≤ MOST_NAMES }
        ensures { Tells (expansion_of (rows_of self.now) (Act.New kind.now)) result }
    {
        if !has_room(&self.types, kind) {
            return Err(too_many(NameKind::Kinds));
        }
        let number = kind_number(&self.types, kind);
        let local = next_of(&self.nexts, number);
        if local >= MOST_LOCALS {
            return Err(StmtError::IdsSpent { kind: number });
        }
        let change = RowChange::AddEntity {
            id: EntityId {
                kind: number,
                local: local as u32,
            },
            kind: kind.try_clone(alloc)?,
        };
        let changes = one(alloc, change)?;
        Ok(changes)
    }

    /// An entity goes, and all that belongs to it before.
    fn expand_delete(&self, alloc: Global, id: EntityId) -> Result<ChangeList, StmtError>
        ensures { Tells (expansion_of (rows_of self.now) (Act.Delete id)) result }
    {
        if !self.has(id) {
            return Err(StmtError::NoEntity { id });
        }
        let changes = self.all_gone(alloc, id)?;
        Ok(changes)
    }

    /// An entity goes: its properties, the links out of it, those into it from others, and then itself.
    fn all_gone(&self, alloc: Global, id: EntityId) -> Result<ChangeList, Memory>
        ensures { IfOk result (λ changes. changes ≡ gone_props (rows_of self.now) id
            ++ (links_out_gone (rows_of self.now) id
            ++ (links_in_gone (rows_of self.now) id ++ RowChange.RemoveEntity id ∷ []))) }
    {
        let mut joins_in = joins_gone(alloc, self.joins(), Side::In, id)?;
        joins_in.push(RowChange::RemoveEntity { id })?;
        let mut joins = joins_gone(alloc, self.joins(), Side::Out, id)?;
        joins.append(joins_in)?;
        let mut changes = props_gone(alloc, self.prop_values(), id)?;
        changes.append(joins)?;
        Ok(changes)
    }

    /// A property is set.
    fn expand_set(
        &self,
        alloc: Global,
        id: EntityId,
        prop: &Text,
        value: &Value,
    ) -> Result<ChangeList, StmtError>
        ensures { Tells (expansion_of (rows_of self.now) (Act.Set id prop.now value.now)) result }
    {
        if !self.has(id) {
            return Err(StmtError::NoEntity { id });
        }
        let len = text_length(value);
        if len > LONGEST_TEXT {
            return Err(StmtError::TextTooLong { len });
        }
        match self.value(id, prop) {
            None => self.prop_set(alloc, id, prop, None, value),
            Some(old) => {
                if old.same(value) {
                    return Ok(ChangeList::new(alloc));
                }
                let old = old.try_clone(alloc)?;
                self.prop_set(alloc, id, prop, Some(old), value)
            }
        }
    }

    /// A property gets a value that differs from its old one.
    fn prop_set(
        &self,
        alloc: Global,
        id: EntityId,
        prop: &Text,
        old: Option<Value>,
        value: &Value,
    ) -> Result<ChangeList, StmtError>
        ensures { Tells (if not (has_room_test (rows_of self.now).props prop.now)
            then Err (StmtError.TooMany NameKind.Props MOST_NAMES)
            else Ok (RowChange.Prop id prop.now old (Some value.now) ∷ [])) result }
    {
        if !has_room(&self.props, prop) {
            return Err(too_many(NameKind::Props));
        }
        let change = RowChange::Prop {
            id,
            name: prop.try_clone(alloc)?,
            old,
            new: Some(value.try_clone(alloc)?),
        };
        let changes = one(alloc, change)?;
        Ok(changes)
    }

    /// A property is taken away.
    fn expand_unset(
        &self,
        alloc: Global,
        id: EntityId,
        prop: &Text,
    ) -> Result<ChangeList, StmtError>
        ensures { Tells (expansion_of (rows_of self.now) (Act.Unset id prop.now)) result }
    {
        if !self.has(id) {
            return Err(StmtError::NoEntity { id });
        }
        match self.value(id, prop) {
            None => Ok(ChangeList::new(alloc)),
            Some(old) => {
                let change = RowChange::Prop {
                    id,
                    name: prop.try_clone(alloc)?,
                    old: Some(old.try_clone(alloc)?),
                    new: None,
                };
                let changes = one(alloc, change)?;
                Ok(changes)
            }
        }
    }

    /// A link behind changes that are made before it.
    fn link_behind(
        &self,
        alloc: Global,
        source: EntityId,
        link: &Text,
        target: EntityId,
        before: ChangeList,
    ) -> Result<ChangeList, StmtError>
        ensures { Tells (link_behind_of (rows_of self.now) source link.now target before) result }
    {
        if self.has_join(source, link, target) {
            return Ok(before);
        }
        if !has_room(&self.links, link) {
            return Err(too_many(NameKind::Links));
        }
        let mut changes = before;
        changes.push(RowChange::LinkAdd {
            source,
            link: link.try_clone(alloc)?,
            target,
        })?;
        Ok(changes)
    }

    /// An entity is linked to another one.
    fn expand_link(
        &self,
        alloc: Global,
        source: EntityId,
        link: &Text,
        target: EntityId,
    ) -> Result<ChangeList, StmtError>
        ensures { Tells (expansion_of (rows_of self.now) (Act.Link source link.now target)) result }
    {
        if !self.has(source) {
            return Err(StmtError::NoEntity { id: source });
        }
        if !self.has(target) {
            return Err(StmtError::NoEntity { id: target });
        }
        self.link_behind(alloc, source, link, target, ChangeList::new(alloc))
    }

    /// An entity is linked to another one, and to no other by this name.
    fn expand_set_link(
        &self,
        alloc: Global,
        source: EntityId,
        link: &Text,
        target: EntityId,
    ) -> Result<ChangeList, StmtError>
        ensures { Tells (expansion_of (rows_of self.now) (Act.SetLink source link.now target)) result }
    {
        if !self.has(source) {
            return Err(StmtError::NoEntity { id: source });
        }
        if !self.has(target) {
            return Err(StmtError::NoEntity { id: target });
        }
        let targets = targets_of(alloc, self.joins(), link, source)?;
        let gone = others(alloc, &targets, target)?;
        let before = targets_gone(alloc, source, link, &gone)?;
        self.link_behind(alloc, source, link, target, before)
    }

    /// A link goes.
    fn expand_unlink(
        &self,
        alloc: Global,
        source: EntityId,
        link: &Text,
        target: EntityId,
    ) -> Result<ChangeList, StmtError>
        ensures { Tells (expansion_of (rows_of self.now) (Act.Unlink source link.now target)) result }
    {
        if !self.has(source) {
            return Err(StmtError::NoEntity { id: source });
        }
        if !self.has_join(source, link, target) {
            return Ok(ChangeList::new(alloc));
        }
        let change = RowChange::LinkDel {
            source,
            link: link.try_clone(alloc)?,
            target,
        };
        let changes = one(alloc, change)?;
        Ok(changes)
    }

    /// All links of an entity by a name go.
    fn expand_unlink_all(
        &self,
        alloc: Global,
        source: EntityId,
        link: &Text,
    ) -> Result<ChangeList, StmtError>
        ensures { Tells (expansion_of (rows_of self.now) (Act.UnlinkAll source link.now)) result }
    {
        if !self.has(source) {
            return Err(StmtError::NoEntity { id: source });
        }
        let targets = targets_of(alloc, self.joins(), link, source)?;
        let changes = targets_gone(alloc, source, link, &targets)?;
        Ok(changes)
    }
}

/// What an act with these changes is answered.
pub fn answer_to(changes: &ChangeList) -> ActAnswer
    ensures { result ≡ act_answer changes.now }
{
    match changes.as_slice() {
        [] => ActAnswer::Same,
        [RowChange::AddEntity { id, .. }, ..] => ActAnswer::Made(*id),
        [_, ..] => ActAnswer::Changed,
    }
}
