//! What is read: sessions with their statements, and the order of their shared steps.
//!
//! Plain data, which every contract sees as it is declared. The readers make it, and the run of a session takes it.
//! Which scripts there are stands in `specs/`.
use sqlite_items::Boxed;
use xod_base::{Cause, Listed, Memory, Mode, Text, Value};
use xod_words::{Draft, Ent};

/// What a statement says. A draft is large and stands in a box, so that the other forms take less room.
#[derive(Debug, Drop)]
pub enum Form {
    /// `begin`, `begin read`, `begin exclusive`: opens a transaction.
    Begin {
        mode: Mode,
    },
    /// `flush`: makes the changes a commit.
    Flush,
    /// `revert`: drops the changes and takes the newest commit.
    Revert,
    /// `end`: drops the changes and closes the transaction.
    End,
    /// `commit`: a flush, and then an end.
    Commit,
    /// `sync`: makes every commit so far durable.
    Sync,
    /// `do COUNT`: begins a block that is tried again after a conflict, this often at most.
    Do {
        tries: u32,
    },
    /// `done`: ends the block.
    Done,
    /// `new NAME as VAR`
    New {
        kind: Text,
        var: Text,
    },
    /// `delete ENT`
    Delete {
        ent: Ent,
    },
    /// `set ENT NAME VALUE`
    Set {
        ent: Ent,
        prop: Text,
        value: Value,
    },
    /// `unset ENT NAME`
    Unset {
        ent: Ent,
        prop: Text,
    },
    /// `link ENT NAME ENT`
    Link {
        source: Ent,
        link: Text,
        target: Ent,
    },
    /// `setlink ENT NAME ENT`
    SetLink {
        source: Ent,
        link: Text,
        target: Ent,
    },
    /// `unlink ENT NAME ENT`
    Unlink {
        source: Ent,
        link: Text,
        target: Ent,
    },
    /// `unlinkall ENT NAME`
    UnlinkAll {
        source: Ent,
        link: Text,
    },
    /// `show ENT`
    Show {
        ent: Ent,
    },
    /// `query QUERY`
    Query {
        draft: Boxed<Draft>,
    },
    /// `count QUERY`
    Count {
        draft: Boxed<Draft>,
    },
}

/// A statement, and the number of its line in the input, from 1.
#[derive(Debug, Drop)]
pub struct Statement {
    pub line: u32,
    pub form: Form,
}

/// The statements of a session, in order.
pub type StatementList = Listed<Statement>;

/// A session: its name, and its statements in order.
#[derive(Debug, Drop)]
pub struct SessionScript {
    pub name: Text,
    pub statements: StatementList,
}

/// The sessions of an input, in order.
pub type SessionList = Listed<SessionScript>;

/// Which step a turn takes.
#[derive(Clone, Copy, Debug, PartialEq, Eq)]
pub enum Turned {
    Begin,
    Flush,
    Revert,
    End,
    Sync,
    /// The session stops at a line, for a cause.
    Stop { line: u32, cause: Cause },
}

/// An item of the order.
#[derive(Debug, Drop)]
pub enum Item {
    /// The next shared step of a session, which must be this one, or its stop.
    Turn { session: Text, step: Turned },
}

/// An item of the order, and the number of its line in the input.
#[derive(Debug, Drop)]
pub struct OrderItem {
    pub line: u32,
    pub item: Item,
}

/// The items of the order, in order.
pub type OrderList = Listed<OrderItem>;

/// The input as a whole.
#[derive(Debug, Drop)]
pub struct Script {
    pub sessions: SessionList,
    /// The number of the line `order`, where there is one.
    pub order_line: Option<u32>,
    pub order: OrderList,
}

/// Why bytes are not a script.
#[derive(Clone, Copy, Debug, PartialEq, Eq)]
pub enum ScriptError {
    /// The first bad line.
    Line { line: u32 },
    /// Memory was refused.
    Memory,
}

impl From<Memory> for ScriptError {
    ghost use Rattle.std.specs.Prelude.{◌≡◌};
    ghost use Rattle.xod_lang.specs.declared.script.ScriptError.TheVariants.{Memory as refused};

    ghost from_gives = { λ _ error. error ≡ refused };

    fn from(_: Memory) -> Self {
        ScriptError::Memory
    }
}
