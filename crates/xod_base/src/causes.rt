//! Why a call was refused, where the reason is the outside or memory.
ghost use Rattle.std.specs.Prelude.{◌≡◌};

use std::alloc::{AllocError, AllocFailed};

/// A source, a sink or a volume failed. The count of faults of that object rose in the call that answers this.
#[derive(Clone, Copy, Debug, PartialEq, Eq)]
pub struct Failed;

/// Memory was refused. The call that answers this changed nothing, unless it says otherwise.
#[derive(Clone, Copy, Debug, PartialEq, Eq)]
pub struct Memory;

/// A byte of a volume file: the number of the file, and the place in it from 0.
#[derive(Clone, Copy, Debug, PartialEq, Eq)]
pub struct Place {
    pub file: u64,
    pub at: u64,
}

/// Why a read of a store's files gave no answer.
#[derive(Clone, Copy, Debug, PartialEq, Eq)]
pub enum ReadError {
    /// The device failed, and its count of faults rose in this call.
    Device,
    /// The bytes that were read are those of no store.
    Damaged(Place),
    /// Memory was refused, and nothing was changed.
    Memory,
}

/// Why a session stopped, or a shared step was refused.
#[derive(Clone, Copy, Debug, PartialEq, Eq)]
pub enum Cause {
    /// The device failed, and a count of faults rose in this call.
    Device,
    /// An earlier write failed, and nothing is written or read any more.
    Broken,
    /// The bytes that were read are those of no store.
    Damaged,
    /// A next number of a commit or a file is needed, and there is none.
    Spent,
    /// Memory was refused.
    Memory,
}

impl From<Memory> for ReadError {
    ghost use Rattle.xod_base.specs.declared.causes.ReadError.{ReadError};

    ghost from_gives = { λ _ error. error ≡ ReadError.Memory };

    fn from(_: Memory) -> Self {
        ReadError::Memory
    }
}

impl From<Memory> for Cause {
    ghost use Rattle.xod_base.specs.declared.causes.Cause.{Cause};

    ghost from_gives = { λ _ cause. cause ≡ Cause.Memory };

    fn from(_: Memory) -> Self {
        Cause::Memory
    }
}

impl From<AllocError> for Memory {
    fn from(_: AllocError) -> Self {
        Memory
    }
}

impl<T: Drop> From<AllocFailed<T>> for Memory {
    fn from(_: AllocFailed<T>) -> Self {
        Memory
    }
}
