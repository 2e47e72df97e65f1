//! The count of faults: it rises by one in each call that answers `Failed`, and in no other.
ghost use Rattle.std.specs.Prelude.{◌≡◌, ◌≤◌, Ok, IfOk, IsErr, IsErrOf, OnOk};
ghost use Rattle.xod_base.specs.Causes.{Rose};
ghost use Rattle.xod_volume.specs.declared.volume.VolumeError.{VolumeError};

use xod_base::Failed;
use xod_volume::VolumeError;

/// Hands an answer on, and counts it where it is a failure.
pub fn counted<T>(faults: &mut u64, answer: Result<T, VolumeError>) -> Result<T, VolumeError>
    ensures same { result ≡ answer }
    ensures failed { IsErrOf result VolumeError.Failed → Rose faults.old faults.new }
    ensures unfailed { OnOk result (faults.new ≡ faults.old) }
    ensures memory { IsErrOf result VolumeError.Memory → faults.new ≡ faults.old }
    ensures never_falls { faults.old ≤ faults.new }
{
    match answer {
        Err(VolumeError::Failed) => {
            *faults = faults.saturating_add(1);
            Err(VolumeError::Failed)
        }
        other => other,
    }
}

/// Hands on the answer of a call that has no word for memory, so that want of it is a failure and counts as one.
pub fn counted_all<T>(faults: &mut u64, answer: Result<T, VolumeError>) -> Result<T, Failed>
    ensures same { IfOk result (λ value. answer ≡ Ok value) }
    ensures failed { IsErr result → Rose faults.old faults.new }
    ensures unfailed { OnOk result (faults.new ≡ faults.old) }
    ensures never_falls { faults.old ≤ faults.new }
{
    match answer {
        Ok(value) => Ok(value),
        Err(_) => {
            *faults = faults.saturating_add(1);
            Err(Failed)
        }
    }
}
