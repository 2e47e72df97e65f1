//! Why a call of the environment was refused.
ghost use Rattle.std.specs.Prelude.{◌≡◌};

use xod_base::{Memory, Place, ReadError};
use xod_log::LogError;
use xod_volume::VolumeError;

/// Why a call of the environment was refused.
#[derive(Clone, Copy, Debug, PartialEq, Eq)]
pub enum EnvError {
    /// A write failed in an earlier call. The environment neither reads nor writes until it is opened again.
    Broken,
    /// The device failed, and a count of faults rose in this call.
    Device,
    /// The bytes that were read are those of no store.
    Damaged(Place),
    /// The next number of a commit or a log file is needed, and there is none behind the last one.
    NumbersSpent { last: u64 },
    /// Memory was refused.
    Memory,
}

/// Why no commit was made of a transaction's changes.
#[derive(Clone, Copy, Debug, PartialEq, Eq)]
pub enum FlushError {
    /// A write failed in an earlier call. The environment neither reads nor writes until it is opened again.
    Broken,
    /// The device failed, and a count of faults rose in this call.
    Device,
    /// The bytes that were read are those of no store.
    Damaged(Place),
    /// The next number of a commit or a log file is needed, and there is none behind the last one.
    NumbersSpent { last: u64 },
    /// Memory was refused.
    Memory,
    /// The transaction saw the commit `base`, and the newest one is `now`.
    Conflict { base: u64, now: u64 },
}

impl From<ReadError> for EnvError {
    ghost use Rattle.xod_env.specs.Errors.{error_of_read};

    ghost from_gives = { λ cause error. error ≡ error_of_read cause };

    fn from(cause: ReadError) -> Self {
        match cause {
            ReadError::Device => EnvError::Device,
            ReadError::Damaged(place) => EnvError::Damaged(place),
            ReadError::Memory => EnvError::Memory,
        }
    }
}

impl From<Memory> for EnvError {
    ghost use Rattle.xod_env.specs.declared.error.EnvError.{EnvError};

    ghost from_gives = { λ _ error. error ≡ EnvError.Memory };

    fn from(_: Memory) -> Self {
        EnvError::Memory
    }
}

impl From<VolumeError> for EnvError {
    ghost use Rattle.xod_env.specs.Errors.{error_of_volume};

    ghost from_gives = { λ cause error. error ≡ error_of_volume cause };

    fn from(cause: VolumeError) -> Self {
        match cause {
            VolumeError::Failed => EnvError::Device,
            VolumeError::Memory => EnvError::Memory,
        }
    }
}

impl From<LogError> for EnvError {
    ghost use Rattle.xod_env.specs.Errors.{error_of_log};

    ghost from_gives = { λ cause error. error ≡ error_of_log cause };

    fn from(cause: LogError) -> Self {
        match cause {
            LogError::Device => EnvError::Device,
            LogError::NumbersSpent { last } => EnvError::NumbersSpent { last },
            LogError::Memory => EnvError::Memory,
        }
    }
}

impl From<EnvError> for FlushError {
    ghost use Rattle.xod_env.specs.Errors.{flush_error_of};

    ghost from_gives = { λ cause error. error ≡ flush_error_of cause };

    fn from(cause: EnvError) -> Self {
        match cause {
            EnvError::Broken => FlushError::Broken,
            EnvError::Device => FlushError::Device,
            EnvError::Damaged(place) => FlushError::Damaged(place),
            EnvError::NumbersSpent { last } => FlushError::NumbersSpent { last },
            EnvError::Memory => FlushError::Memory,
        }
    }
}

impl From<ReadError> for FlushError {
    ghost use Rattle.xod_env.specs.Errors.{error_of_read, flush_error_of};

    ghost from_gives = { λ cause error. error ≡ flush_error_of (error_of_read cause) };

    fn from(cause: ReadError) -> Self {
        FlushError::from(EnvError::from(cause))
    }
}

impl From<LogError> for FlushError {
    ghost use Rattle.xod_env.specs.Errors.{error_of_log, flush_error_of};

    ghost from_gives = { λ cause error. error ≡ flush_error_of (error_of_log cause) };

    fn from(cause: LogError) -> Self {
        FlushError::from(EnvError::from(cause))
    }
}
