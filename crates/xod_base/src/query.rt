//! What a statement asks: acts that change an entity, and queries that name some.
//!
//! What an act does stands in `xod_model`, what a query answers in `specs/Evaluation.antt`.
ghost use Rattle.std.specs.Prelude.{◌≡◌, IfOk};

use crate::Memory;
use crate::text::Text;
use crate::value::{EntityId, Value};
use sqlite_items::Boxed;
use std::alloc::Global;

/// A change that a statement asks for. Each name has 1 to 255 bytes.
#[derive(Debug, Drop)]
pub enum Act {
    /// Makes an entity of a type.
    New {
        kind: Text,
    },
    /// Takes away an entity, with its properties, its links and the links to it.
    Delete {
        id: EntityId,
    },
    /// Sets a property of an entity.
    Set {
        id: EntityId,
        prop: Text,
        value: Value,
    },
    /// Takes away a property of an entity.
    Unset {
        id: EntityId,
        prop: Text,
    },
    /// Links an entity to another one.
    Link {
        source: EntityId,
        link: Text,
        target: EntityId,
    },
    /// Links an entity to another one, and to no other by this name.
    SetLink {
        source: EntityId,
        link: Text,
        target: EntityId,
    },
    /// Takes away one link.
    Unlink {
        source: EntityId,
        link: Text,
        target: EntityId,
    },
    /// Takes away all links of an entity by a name.
    UnlinkAll {
        source: EntityId,
        link: Text,
    },
}

/// Whether lower or higher keys come first.
#[derive(Clone, Copy, Debug, PartialEq, Eq)]
pub enum Direction {
    Up,
    Down,
}

/// A question whose answer is a list of ids. The first eight forms have no parts.
#[derive(Debug, Drop)]
pub enum Query {
    /// The ids of a type.
    All {
        kind: Text,
    },
    /// Those of a type whose property has the key of the value.
    Find {
        kind: Text,
        prop: Text,
        value: Value,
    },
    /// Those of a type whose property has a key that is neither below the low one nor above the high one.
    Range {
        kind: Text,
        prop: Text,
        low: Value,
        high: Value,
    },
    /// Those of a type whose property is a text that begins with this one, both folded.
    Prefix {
        kind: Text,
        prop: Text,
        text: Text,
    },
    /// Those of a type that have the property.
    With {
        kind: Text,
        prop: Text,
    },
    /// Those of a type that have such a link.
    WithLink {
        kind: Text,
        link: Text,
    },
    /// Those of a type that have such a link to the target.
    Linked {
        kind: Text,
        link: Text,
        target: EntityId,
    },
    /// The targets of an entity's links by a name.
    LinksOf {
        source: EntityId,
        link: Text,
    },
    /// The ids in either part.
    Union {
        left: Boxed<Query>,
        right: Boxed<Query>,
    },
    /// The ids in both parts.
    Intersect {
        left: Boxed<Query>,
        right: Boxed<Query>,
    },
    /// The ids in the left part and not in the right one.
    Minus {
        left: Boxed<Query>,
        right: Boxed<Query>,
    },
    /// The targets of links by a name of the ids in the part.
    Targets {
        link: Text,
        of: Boxed<Query>,
    },
    /// The ids of the part by a property; equal keys by rising id, ids without it last.
    Sort {
        prop: Text,
        direction: Direction,
        of: Boxed<Query>,
    },
    /// The part without its first ids.
    Skip {
        count: u32,
        of: Boxed<Query>,
    },
    /// The first ids of the part.
    Take {
        count: u32,
        of: Boxed<Query>,
    },
}

/// How a transaction sees the store.
#[derive(Clone, Copy, Debug, PartialEq, Eq)]
pub enum Mode {
    /// It reads and writes, and its flush conflicts where another commit came since.
    Ordinary,
    /// It reads alone, and is in nobody's way.
    ReadOnly,
    /// It reads and writes, and no other one that writes is open beside it.
    Exclusive,
}

/// A part of a query, boxed once more.
#[cycle(query_clone)]
fn boxed_clone(alloc: Global, part: &Boxed<Query>) -> Result<Boxed<Query>, Memory>
    ensures { IfOk result (λ copied. copied ≡ part.now) }
{
    let copied = part.get().try_clone(alloc)?;
    Ok(Boxed::new(alloc, copied)?)
}

impl Query {
    /// The same query once more.
    #[cycle(query_clone)]
    pub fn try_clone(&self, alloc: Global) -> Result<Query, Memory>
        ensures { IfOk result (λ query. query ≡ self.now) }
    {
        match self {
            Query::All { kind } => Ok(Query::All {
                kind: kind.try_clone(alloc)?,
            }),
            Query::Find { kind, prop, value } => Ok(Query::Find {
                kind: kind.try_clone(alloc)?,
                prop: prop.try_clone(alloc)?,
                value: value.try_clone(alloc)?,
            }),
            Query::Range {
                kind,
                prop,
                low,
                high,
            } => Ok(Query::Range {
                kind: kind.try_clone(alloc)?,
                prop: prop.try_clone(alloc)?,
                low: low.try_clone(alloc)?,
                high: high.try_clone(alloc)?,
            }),
            Query::Prefix { kind, prop, text } => Ok(Query::Prefix {
                kind: kind.try_clone(alloc)?,
                prop: prop.try_clone(alloc)?,
                text: text.try_clone(alloc)?,
            }),
            Query::With { kind, prop } => Ok(Query::With {
                kind: kind.try_clone(alloc)?,
                prop: prop.try_clone(alloc)?,
            }),
            Query::WithLink { kind, link } => Ok(Query::WithLink {
                kind: kind.try_clone(alloc)?,
                link: link.try_clone(alloc)?,
            }),
            Query::Linked { kind, link, target } => Ok(Query::Linked {
                kind: kind.try_clone(alloc)?,
                link: link.try_clone(alloc)?,
                target: *target,
            }),
            Query::LinksOf { source, link } => Ok(Query::LinksOf {
                source: *source,
                link: link.try_clone(alloc)?,
            }),
            Query::Union { left, right } => Ok(Query::Union {
                left: boxed_clone(alloc, left)?,
                right: boxed_clone(alloc, right)?,
            }),
            Query::Intersect { left, right } => Ok(Query::Intersect {
                left: boxed_clone(alloc, left)?,
                right: boxed_clone(alloc, right)?,
            }),
            Query::Minus { left, right } => Ok(Query::Minus {
                left: boxed_clone(alloc, left)?,
                right: boxed_clone(alloc, right)?,
            }),
            Query::Targets { link, of } => Ok(Query::Targets {
                link: link.try_clone(alloc)?,
                of: boxed_clone(alloc, of)?,
            }),
            Query::Sort {
                prop,
                direction,
                of,
            } => Ok(Query::Sort {
                prop: prop.try_clone(alloc)?,
                direction: *direction,
                of: boxed_clone(alloc, of)?,
            }),
            Query::Skip { count, of } => Ok(Query::Skip {
                count: *count,
                of: boxed_clone(alloc, of)?,
            }),
            Query::Take { count, of } => Ok(Query::Take {
                count: *count,
                of: boxed_clone(alloc, of)?,
            }),
        }
    }
}
