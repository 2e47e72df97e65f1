//! What the readers of queries hand to each other: fronts of words, and the parts that stand behind them.
//!
//! Plain data; what is read as which of it stands in `specs/Fronts.antt` and `specs/Queries.antt`.
use crate::draft::Ent;
use xod_base::{Direction, Listed, Query, Text};

/// The entity words of a query, left to right.
pub type EntList = Listed<Ent>;

/// A query that was read, which may be a part of another one.
#[derive(Drop)]
pub struct Part {
    /// The query, with the id 0-0 for each variable.
    pub query: Query,
    pub ents: EntList,
    /// How many parts without parts it has.
    pub leaves: usize,
}

/// How two parts make a query.
#[derive(Clone, Copy)]
pub enum Join {
    Union,
    Intersect,
    Minus,
}

/// What stands before the one part of a query.
#[derive(Drop)]
pub enum Above {
    Targets { link: Text },
    Sort { prop: Text, direction: Direction },
    Skip { count: u32 },
    Take { count: u32 },
}

/// The words of a query before its first part.
#[derive(Drop)]
pub enum Front {
    /// All of the query, which has no parts.
    Leaf(Part),
    /// Two parts follow.
    Joining(Join),
    /// One part follows.
    Over(Above),
}
