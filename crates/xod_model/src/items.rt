//! What stands in the lists of rows: entities, values of properties, links.
//!
//! What each is found by stands in `specs/Keys.antt`, and which entry of the rows it is in `specs/Entries.antt`.
use crate::keyed::{Copied, Key, Keyed};
use std::alloc::Global;
use xod_base::{EntityId, Memory, Text, Value};

/// A property of an entity, and its value.
#[derive(Debug, Drop)]
pub struct PropValue {
    pub id: EntityId,
    pub name: Text,
    pub value: Value,
}

/// A link from an entity to another one.
#[derive(Debug, Drop)]
pub struct Join {
    pub source: EntityId,
    pub link: Text,
    pub target: EntityId,
}

impl Copied for Text {
    fn copied(&self, alloc: Global) -> Result<Text, Memory> {
        let text = self.try_clone(alloc)?;
        Ok(text)
    }
}

impl Copied for EntityId {
    fn copied(&self, _: Global) -> Result<EntityId, Memory> {
        Ok(*self)
    }
}

impl Copied for PropValue {
    fn copied(&self, alloc: Global) -> Result<PropValue, Memory> {
        Ok(PropValue {
            id: self.id,
            name: self.name.try_clone(alloc)?,
            value: self.value.try_clone(alloc)?,
        })
    }
}

impl Copied for Join {
    fn copied(&self, alloc: Global) -> Result<Join, Memory> {
        Ok(Join {
            source: self.source,
            link: self.link.try_clone(alloc)?,
            target: self.target,
        })
    }
}

impl Keyed for EntityId {
    ghost use Rattle.xod_model.specs.Keys.{id_key};

    ghost key = { id_key };

    fn key(&self) -> Key<'_> {
        Key::of_entity(*self)
    }
}

impl Keyed for PropValue {
    ghost use Rattle.xod_model.specs.Keys.{cell_key};

    ghost key = { λ prop. cell_key (prop.id, prop.name) };

    fn key(&self) -> Key<'_> {
        Key::of_prop(self.id, &self.name)
    }
}

impl Keyed for Join {
    ghost use Rattle.xod_model.specs.Entries.{join_key};

    ghost key = { join_key };

    fn key(&self) -> Key<'_> {
        Key::of_join(self.source, &self.link, self.target)
    }
}
