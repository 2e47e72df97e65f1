//! What belongs to an entity.
use xod_base::{EntityId, Listed, Text, Value};

/// A property with its value, and the number of its name.
#[derive(Debug, Drop)]
pub struct NamedValue {
    pub number: u32,
    pub name: Text,
    pub value: Value,
}

/// A link with the entity at its other end, and the number of its name.
#[derive(Debug, Drop)]
pub struct NamedLink {
    pub number: u32,
    pub name: Text,
    pub end: EntityId,
}

/// Properties of one entity.
pub type NamedValues = Listed<NamedValue>;

/// Links of one entity.
pub type NamedLinks = Listed<NamedLink>;
