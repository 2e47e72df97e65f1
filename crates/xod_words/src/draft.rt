//! Entities by id or by variable, and queries that name entities so.
//!
//! Plain data, which every contract sees as it is declared. `query.rt` makes drafts, and a session fills in the ids.
use xod_base::{EntityId, Listed, Query, Text};

/// How a statement names an entity.
#[derive(Debug, Drop)]
pub enum Ent {
    /// By its id.
    Id(EntityId),
    /// By a variable, without its `$`: the id of the last `new` with its name.
    Var(Text),
}

/// Which entity word of a query is a variable: the number of the word from 0, left to right, and the variable without
/// its `$`.
#[derive(Debug, Drop)]
pub struct VarUse {
    pub place: u32,
    pub var: Text,
}

/// The variables of a query, by rising number.
pub type VarList = Listed<VarUse>;

/// A query whose entity words may be variables. Where one is, `query` has the id 0-0.
#[derive(Debug, Drop)]
pub struct Draft {
    pub query: Query,
    pub vars: VarList,
}
