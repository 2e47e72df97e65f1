//! Why a call of the log was refused.
ghost use Rattle.std.specs.Prelude.{◌≡◌};
ghost use Rattle.xod_log.specs.declared.error.LogError.{LogError};

use xod_base::Failed;
use xod_volume::VolumeError;

/// Why a call of the log was refused.
#[derive(Clone, Copy, Debug, PartialEq, Eq)]
pub enum LogError {
    /// The device failed, and the volume's count of faults rose in this call. The log is opened again before it is used.
    Device,
    /// There is no file to roll to: the current one has the last number.
    NumbersSpent { last: u64 },
    /// Memory was refused. The log stands, and the call can be made again.
    Memory,
}

impl From<Failed> for LogError {
    ghost from_gives = { λ _ error. error ≡ LogError.Device };

    fn from(_: Failed) -> Self {
        LogError::Device
    }
}

impl From<VolumeError> for LogError {
    ghost use Rattle.xod_log.specs.Errors.{error_of};

    ghost from_gives = { λ cause error. error ≡ error_of cause };

    fn from(cause: VolumeError) -> Self {
        match cause {
            VolumeError::Failed => LogError::Device,
            VolumeError::Memory => LogError::Memory,
        }
    }
}
