//! Why a step was refused, for the caller and for a session.
ghost use Rattle.std.specs.Prelude.{◌≡◌};
ghost use Rattle.xod_store.specs.Causes.{cause_of, fault_of};

use xod_base::{Cause, Memory};
use xod_env::{EnvError, FlushError};
use xod_journal::BeginFault;

/// Why a begin did not begin.
#[derive(Clone, Copy, Debug, PartialEq, Eq)]
pub enum BeginError {
    /// Another transaction is in the way: the least actor who has such a one open.
    Busy { holder: u32 },
    /// The environment or memory refused it.
    Env(EnvError),
}

impl From<Memory> for BeginError {
    ghost use Rattle.xod_env.specs.declared.error.EnvError.TheVariants as env_error;
    ghost use Rattle.xod_store.specs.declared.causes.BeginError.{BeginError};

    ghost from_gives = { λ _ error. error ≡ BeginError.Env env_error.Memory };

    fn from(_: Memory) -> Self {
        BeginError::Env(EnvError::Memory)
    }
}

impl From<EnvError> for BeginError {
    ghost use Rattle.xod_store.specs.declared.causes.BeginError.{BeginError};

    ghost from_gives = { λ cause error. error ≡ BeginError.Env cause };

    fn from(cause: EnvError) -> Self {
        BeginError::Env(cause)
    }
}

/// The cause that a session is told.
pub fn cause_of(error: EnvError) -> Cause
    ensures { result ≡ cause_of error }
{
    match error {
        EnvError::Broken => Cause::Broken,
        EnvError::Device => Cause::Device,
        EnvError::Damaged(_) => Cause::Damaged,
        EnvError::NumbersSpent { .. } => Cause::Spent,
        EnvError::Memory => Cause::Memory,
    }
}

/// The fault of a begin that a session is told.
pub fn fault_of(error: BeginError) -> BeginFault
    ensures { result ≡ fault_of error }
{
    match error {
        BeginError::Busy { holder } => BeginFault::Busy { holder },
        BeginError::Env(error) => BeginFault::Cause(cause_of(error)),
    }
}
