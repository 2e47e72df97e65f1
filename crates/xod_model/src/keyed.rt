//! By what the items of rows are ordered and found: an id, a name, another id.
//!
//! A link has all three. The value of a property has no other id, and an entity has an id alone; what is missing is
//! the empty name or the id 0-0. So one order serves the three lists, `link_cmp` of `xod_base`.
ghost use Rattle.std.specs.Prelude.{◌≡◌, IfOk, IsTrue};
ghost use Rattle.xod_base.specs.Rows.{link_cmp};
ghost use Rattle.xod_base.specs.Text.{is_text};
ghost use Rattle.xod_model.specs.Keys.{cell_key, id_key, link_of};

use std::alloc::Global;
use std::cmp::Ordering;
use xod_base::{EntityId, Memory, Text};

/// The id that stands where a key has no other one.
const NO_OTHER: EntityId = EntityId { kind: 0, local: 0 };

/// What an item is found by.
#[derive(Clone, Copy)]
pub struct Key<'a> {
    pub id: EntityId,
    pub name: &'a [u8],
    pub target: EntityId,
}

impl<'a> Key<'a> {
    /// The key of an entity.
    pub fn of_entity(id: EntityId) -> Key<'static>
        ensures { link_of result ≡ id_key id }
    {
        Key {
            id,
            name: b"",
            target: NO_OTHER,
        }
    }

    /// The key of a property of an entity.
    pub fn of_prop(id: EntityId, name: &'a Text) -> Key<'a>
        ensures key { link_of result ≡ cell_key (id, name.now) }
        ensures text { IsTrue (is_text name.now) }
    {
        Key {
            id,
            name: name.as_bytes(),
            target: NO_OTHER,
        }
    }

    /// The key of a link from an entity to another one.
    pub fn of_join(source: EntityId, link: &'a Text, target: EntityId) -> Key<'a>
        ensures key { link_of result ≡ (source, (link.now, target)) }
        ensures text { IsTrue (is_text link.now) }
    {
        Key {
            id: source,
            name: link.as_bytes(),
            target,
        }
    }
}

/// How a key is to another one.
pub fn order(key: Key<'_>, other: Key<'_>) -> Ordering
    ensures { result ≡ link_cmp (link_of key.entry) (link_of other.entry) }
{
    let names = key.name.cmp(other.name);
    let targets = key.target.cmp(&other.target);
    key.id.cmp(&other.id).then(names.then(targets))
}

/// What can be had once more.
pub trait Copied: Drop {
    /// The same once more.
    fn copied(&self, alloc: Global) -> Result<Self, Memory>
        ensures { IfOk result (λ item. item ≡ self.now) };
}

/// What stands in a list that rises.
pub trait Keyed: Copied {
    ghost use Rattle.xod_base.specs.Rows.{LinkKey};

    ghost key: { Self → LinkKey };

    /// What the item is found by.
    fn key(&self) -> Key<'_>
        ensures { link_of result ≡ key self.now };
}

/// The same items once more.
pub fn copies<T: Copied>(alloc: Global, items: &[T]) -> Result<Vec<T>, Memory>
    ensures { IfOk result (λ copied. copied.items ≡ items.now) }
{
    let mut copied = Vec::new(alloc);
    for item in items {
        copied.push(item.copied(alloc)?)?;
    }
    Ok(copied)
}
