//! What a statement is answered.
//!
//! The text of each answer is `xod_print`'s; when each comes stands in `xod_model` and in `xod_session`.
ghost use Rattle.std.specs.Prelude.{◌≡◌};

use crate::causes::{Cause, Memory, Place};
use crate::ids::IdList;
use crate::listed::Listed;
use crate::text::Text;
use crate::value::{EntityId, Value};

/// A list of names.
pub type NameList = Listed<Text>;

/// A list of properties, each with its value.
pub type PropList = Listed<(Text, Value)>;

/// A list of links by their names, each with its target.
pub type LinkList = Listed<(Text, EntityId)>;

/// Which of the store's lists of names.
#[derive(Clone, Copy, Debug, PartialEq, Eq)]
pub enum NameKind {
    /// The types.
    Kinds,
    /// The properties.
    Props,
    /// The links.
    Links,
}

/// What an act did.
#[derive(Clone, Copy, Debug, PartialEq, Eq)]
pub enum ActAnswer {
    /// It made the entity with this id.
    Made(EntityId),
    /// It changed something.
    Changed,
    /// It found all as it asks, and changed nothing.
    Same,
}

/// Why a statement was refused. A refusal changes nothing.
#[derive(Clone, Copy, Debug, PartialEq, Eq)]
pub enum StmtError {
    /// There is no such entity.
    NoEntity { id: EntityId },
    /// The transaction reads alone.
    ReadOnly,
    /// A new name is needed, and its list is full.
    TooMany { kind: NameKind, limit: u32 },
    /// The type has no further local number.
    IdsSpent { kind: u32 },
    /// The text has more bytes than a property may have.
    TextTooLong { len: u64 },
    /// The device failed, and a count of faults rose in this call.
    Device,
    /// The bytes that were read are those of no store.
    Damaged(Place),
    /// Memory was refused.
    Memory,
}

impl From<Memory> for StmtError {
    ghost use Rattle.xod_base.specs.declared.answer.StmtError.{StmtError};

    ghost from_gives = { λ _ error. error ≡ StmtError.Memory };

    fn from(_: Memory) -> Self {
        StmtError::Memory
    }
}

/// What a flush did.
#[derive(Clone, Copy, Debug, PartialEq, Eq)]
pub enum FlushAnswer {
    /// There were no changes, so there is no commit.
    Nothing,
    /// The changes are the commit with this number. Where there is a fault, the transaction could not go on at it.
    Committed { version: u64, fault: Option<Cause> },
    /// Another commit came since: the transaction's base, and the newest commit.
    Conflict { base: u64, now: u64 },
}

/// An entity with all that belongs to it: its properties by rising name, its links by rising name and target.
#[derive(Debug, Drop)]
pub struct Shown {
    pub id: EntityId,
    pub kind: Text,
    pub props: PropList,
    pub links: LinkList,
}

/// What a query was answered, and whether the answer was in the cache.
#[derive(Debug, Drop)]
pub struct Answer {
    pub ids: IdList,
    pub hit: bool,
}

/// The answer of one statement or shared step.
#[derive(Debug, Drop)]
pub enum Reply {
    /// A begin or a revert: the commit that the transaction sees.
    At { commit: u64 },
    Flushed(FlushAnswer),
    Ended,
    Synced,
    Acted(ActAnswer),
    Shown(Shown),
    Ids(IdList),
    /// How many ids a query has.
    Count { number: u64 },
    Refused(StmtError),
    /// The statement names a variable that no `new` has set.
    Unset { name: Text },
    /// The session stopped here.
    Stop { cause: Cause },
}
