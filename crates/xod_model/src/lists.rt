//! The contents of a store in lists, sound or not.
//!
//! What is found in them, and what a change makes of them; whether the change fits is asked by `Rows`.
ghost use Rattle.std.specs.Prelude.{◌≡◌, IfOk, OnOk, IsTrue, is_ok, is_some, if◌then◌else◌, map};
ghost use Rattle.std.specs.FinMap.{entries, get, keys};
ghost use Rattle.std.specs.Option.{option_copied};
ghost use Rattle.xod_base.specs.Rows.{no_rows};
ghost use Rattle.xod_model.specs.Entries.{join_key, prop_entry, rows_of};

use crate::items::{Join, PropValue};
use crate::keyed::{Key, copies};
use crate::rising::Rising;
use std::alloc::Global;
use xod_base::{EntityId, Memory, Text, Value};

/// Names in order of first use, next numbers, and what stands under them.
#[derive(Debug, Drop)]
pub struct Lists {
    pub types: Vec<Text>,
    pub props: Vec<Text>,
    pub links: Vec<Text>,
    pub nexts: Vec<u64>,
    pub ids: Rising<EntityId>,
    pub values: Rising<PropValue>,
    pub joined: Rising<Join>,
}

impl Lists {
    /// The lists of a store without contents.
    pub fn empty(alloc: Global) -> Lists
        ensures { rows_of result ≡ no_rows }
    {
        Lists {
            types: Vec::new(alloc),
            props: Vec::new(alloc),
            links: Vec::new(alloc),
            nexts: Vec::new(alloc),
            ids: Rising::new(alloc),
            values: Rising::new(alloc),
            joined: Rising::new(alloc),
        }
    }

    /// The same lists once more.
    pub fn try_clone(&self, alloc: Global) -> Result<Lists, Memory>
        ensures { IfOk result (λ lists. rows_of lists ≡ rows_of self.now) }
    {
        Ok(Lists {
            types: copies(alloc, &self.types)?,
            props: copies(alloc, &self.props)?,
            links: copies(alloc, &self.links)?,
            nexts: Vec::from_slice(alloc, &self.nexts)?,
            ids: self.ids.try_clone(alloc)?,
            values: self.values.try_clone(alloc)?,
            joined: self.joined.try_clone(alloc)?,
        })
    }

    /// Whether an entity is there.
    pub fn has(&self, id: EntityId) -> bool
        ensures { result ≡ is_some (get (rows_of self.now).ids id) }
    {
        self.ids.find(Key::of_entity(id)).is_some()
    }

    /// The value of a property of an entity.
    pub fn value(&self, id: EntityId, name: &Text) -> Option<&Value>
        ensures { option_copied result ≡ get (rows_of self.now).values (id, name.now) }
    {
        match self.values.find(Key::of_prop(id, name)) {
            Some(found) => Some(&found.value),
            None => None,
        }
    }

    /// Whether an entity is linked to another one by a name.
    pub fn has_join(&self, source: EntityId, link: &Text, target: EntityId) -> bool
        ensures { result ≡ is_some (get (rows_of self.now).joined (source, (link.now, target))) }
    {
        self.joined
            .find(Key::of_join(source, link, target))
            .is_some()
    }

    /// The entities, rising.
    pub fn entities(&self) -> &[EntityId]
        ensures { result.now ≡ keys (rows_of self.now).ids }
    {
        self.ids.as_slice()
    }

    /// The properties of all entities, by entity, then by name.
    pub fn prop_values(&self) -> &[PropValue]
        ensures { map prop_entry result.now ≡ entries (rows_of self.now).values }
    {
        self.values.as_slice()
    }

    /// The links of all entities, by source, then by name, then by target.
    pub fn joins(&self) -> &[Join]
        ensures { map join_key result.now ≡ keys (rows_of self.now).joined }
    {
        self.joined.as_slice()
    }
}
