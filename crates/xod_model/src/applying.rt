//! What a change makes of the lists.
//!
//! What it needs of memory is taken first, and what is written then can't fail. Whether it fits is asked by `Rows`.
ghost use Rattle.std.specs.Prelude.{◌≡◌, IsTrue, None, OnOk, Some, is_ok, if◌then◌else◌};
ghost use Rattle.xod_base.specs.Text.{is_text};
ghost use Rattle.xod_journal.specs.Changes.{applied, is_change};
ghost use Rattle.xod_model.specs.Entries.{rows_of};

use crate::items::{Join, PropValue};
use crate::keyed::Key;
use crate::lists::Lists;
use crate::names::{add_name, set_next};
use std::alloc::Global;
use xod_base::{EntityId, Memory, Text, Value};
use xod_journal::RowChange;

impl Lists {
    /// Makes a change. A refusal leaves the lists as they were.
    pub fn apply(&mut self, alloc: Global, change: &RowChange) -> Result<(), Memory>
        ensures rows { rows_of self.new
            ≡ (if is_ok result then applied (rows_of self.old) change.now else rows_of self.old) }
        ensures valid { OnOk result (IsTrue (is_change change.now)) }
    {
        match change {
            RowChange::AddEntity { id, kind } => {
                self.add_entity(alloc, *id, kind)?;
                Ok(())
            }
            RowChange::RemoveEntity { id } => {
                self.ids.remove(Key::of_entity(*id));
                Ok(())
            }
            RowChange::Prop {
                id,
                name,
                old: _,
                new,
            } => match new {
                Some(value) => {
                    self.set_value(alloc, *id, name, value)?;
                    Ok(())
                }
                None => {
                    self.values.remove(Key::of_prop(*id, name));
                    Ok(())
                }
            },
            RowChange::LinkAdd {
                source,
                link,
                target,
            } => {
                self.add_join(alloc, *source, link, *target)?;
                Ok(())
            }
            RowChange::LinkDel {
                source,
                link,
                target,
            } => {
                self.joined.remove(Key::of_join(*source, link, *target));
                Ok(())
            }
        }
    }

    /// Lists a new entity, its type's name and the type's next number.
    fn add_entity(&mut self, alloc: Global, id: EntityId, kind: &Text) -> Result<(), Memory>
        ensures rows { rows_of self.new ≡ (if is_ok result
            then applied (rows_of self.old) (RowChange.AddEntity id kind.now) else rows_of self.old) }
        ensures text { OnOk result (IsTrue (is_text kind.now)) }
    {
        let listed = kind.try_clone(alloc)?;
        self.types.reserve(1)?;
        self.nexts.reserve(1)?;
        self.ids.put(id)?;
        add_name(&mut self.types, listed);
        set_next(&mut self.nexts, id.kind, u64::from(id.local) + 1);
        Ok(())
    }

    /// Sets a property, and lists its name.
    fn set_value(
        &mut self,
        alloc: Global,
        id: EntityId,
        name: &Text,
        value: &Value,
    ) -> Result<(), Memory>
        ensures rows { rows_of self.new ≡ (if is_ok result
            then applied (rows_of self.old) (RowChange.Prop id name.now None (Some value.now)) else rows_of self.old) }
        ensures valid { OnOk result
            (IsTrue (is_change (RowChange.Prop id name.now None (Some value.now)))) }
    {
        let listed = name.try_clone(alloc)?;
        self.props.reserve(1)?;
        self.values.put(PropValue {
            id,
            name: name.try_clone(alloc)?,
            value: value.try_clone(alloc)?,
        })?;
        add_name(&mut self.props, listed);
        Ok(())
    }

    /// Links an entity to another one, and lists the link's name.
    fn add_join(
        &mut self,
        alloc: Global,
        source: EntityId,
        link: &Text,
        target: EntityId,
    ) -> Result<(), Memory>
        ensures rows { rows_of self.new ≡ (if is_ok result
            then applied (rows_of self.old) (RowChange.LinkAdd source link.now target) else rows_of self.old) }
        ensures text { OnOk result (IsTrue (is_text link.now)) }
    {
        let listed = link.try_clone(alloc)?;
        self.links.reserve(1)?;
        self.joined.put(Join {
            source,
            link: link.try_clone(alloc)?,
            target,
        })?;
        add_name(&mut self.links, listed);
        Ok(())
    }
}
