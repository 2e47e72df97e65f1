//! Why a store was not opened.
ghost use Rattle.std.specs.Prelude.{◌≡◌};
ghost use Rattle.xod_recover.specs.declared.error.OpenError.{OpenError};

use xod_base::{Failed, Memory, Place, ReadError};
use xod_volume::VolumeError;

/// Why a store was not opened.
#[derive(Clone, Copy, Debug, PartialEq, Eq)]
pub enum OpenError {
    /// The files are not those of a good store: this is the first bad place. It is that of the root
    /// where all that the root reaches is there, and its trees are the tables of no rows.
    Damaged(Place),
    /// The device failed, and its count of faults rose in this call.
    Device,
    /// Memory was refused.
    Memory,
}

impl From<Failed> for OpenError {
    ghost from_gives = { λ _ error. error ≡ OpenError.Device };

    fn from(_: Failed) -> Self {
        OpenError::Device
    }
}

impl From<Memory> for OpenError {
    ghost from_gives = { λ _ error. error ≡ OpenError.Memory };

    fn from(_: Memory) -> Self {
        OpenError::Memory
    }
}

impl From<VolumeError> for OpenError {
    ghost use Rattle.xod_recover.specs.Errors.{volume_as};

    ghost from_gives = { λ cause error. error ≡ volume_as cause };

    fn from(cause: VolumeError) -> Self {
        match cause {
            VolumeError::Failed => OpenError::Device,
            VolumeError::Memory => OpenError::Memory,
        }
    }
}

impl From<ReadError> for OpenError {
    ghost use Rattle.xod_recover.specs.Errors.{read_as};

    ghost from_gives = { λ cause error. error ≡ read_as cause };

    fn from(cause: ReadError) -> Self {
        match cause {
            ReadError::Device => OpenError::Device,
            ReadError::Damaged(place) => OpenError::Damaged(place),
            ReadError::Memory => OpenError::Memory,
        }
    }
}
