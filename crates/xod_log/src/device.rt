//! Two calls of the device in one: what is written is durable where they succeed.
ghost use Rattle.std.specs.Prelude.{◌≡◌, ◌≤◌, ◌+◌, ◌++◌, ℕ, Bool, [], true, length, OnOk, IsErrOf, IsSome, IsTrue, Some, is_some};
ghost use mathlib.Core.Logic.{◌≢◌};
ghost use Rattle.std.specs.FinMap.{get, insert};
ghost use Rattle.xod_base.specs.Causes.{Rose};
ghost use Rattle.xod_volume.specs.Files.{Files, bytes_of, size_of, overwritten};
ghost use Rattle.xod_volume.specs.Crash.{OnFile, OnBytes, Torn, Appears, Passes};
ghost use Rattle.xod_volume.specs.Leases.{Stays};
ghost use Rattle.xod_log.specs.declared.error.LogError.{LogError};
ghost use Rattle.xod_log.specs.Standing.{IsSettled};

use crate::error::LogError;
use xod_volume::Volume;

/// Writes bytes over those of a file from a place on, and syncs the file.
pub fn write_synced<V: Volume>(
    volume: &mut V,
    file: u64,
    at: u64,
    bytes: &[u8],
) -> Result<(), LogError>
    requires exists { IsTrue (V.tells volume.old) → IsSome (get (V.files volume.old) file) }
    requires within { IsTrue (V.tells volume.old) → at + length bytes.now ≤ size_of (V.files volume.old) file }
    ensures written { IsTrue (V.tells volume.old) → OnOk result (V.files volume.new
        ≡ insert (V.files volume.old) file (overwritten (bytes_of (V.files volume.old) file) at bytes.now)) }
    ensures torn { IsTrue (V.tells volume.old) → OnFile file (OnBytes (Torn at (length bytes.now)))
        (V.files volume.old) (V.files volume.new) }
    ensures others { IsTrue (V.tells volume.old) → (other : ℕ) → other ≢ file
        → get (V.files volume.new) other ≡ get (V.files volume.old) other }
    ensures durable { IsTrue (V.tells volume.old) → OnOk result ((left : Files)
        → V.may_leave volume.new (V.moment volume.new) left → get left file ≡ get (V.files volume.new) file) }
    ensures kept { IsTrue (V.tells volume.old) → V.may_leave volume.new (V.moment volume.new) (V.files volume.new) }
    ensures crash { IsTrue (V.tells volume.old) → Passes (V.moment volume.old) (V.moment volume.new)
        (V.may_leave volume.old) (V.may_leave volume.new) (OnFile file (OnBytes (Torn at (length bytes.now)))) }
    ensures only_device { (error : LogError) → IsErrOf result error → error ≡ LogError.Device }
    ensures failed { IsErrOf result LogError.Device → Rose (V.faults volume.old) (V.faults volume.new) }
    ensures unfailed { ¬ (IsErrOf result LogError.Device) → V.faults volume.new ≡ V.faults volume.old }
    ensures stays { Stays (V.tells volume.old) (V.tells volume.new) (V.leases volume.old) (V.leases volume.new)
        (V.refs volume.old) (V.refs volume.new) (V.faults volume.old) (V.faults volume.new) }
{
    volume.write_at(file, at, bytes)?;
    volume.sync(file)?; // the bytes written
    Ok(())
}

/// Puts bytes at the end of a file, and syncs the file.
pub fn append_synced<V: Volume>(volume: &mut V, file: u64, bytes: &[u8]) -> Result<(), LogError>
    requires exists { IsTrue (V.tells volume.old) → IsSome (get (V.files volume.old) file) }
    ensures appended { IsTrue (V.tells volume.old) → OnOk result (V.files volume.new
        ≡ insert (V.files volume.old) file (bytes_of (V.files volume.old) file ++ bytes.now)) }
    ensures torn { IsTrue (V.tells volume.old) → OnFile file (OnBytes (Torn (size_of (V.files volume.old) file) (length bytes.now)))
        (V.files volume.old) (V.files volume.new) }
    ensures unchanged { IsTrue (V.tells volume.old) → IsErrOf result LogError.Memory
        → V.files volume.new ≡ V.files volume.old }
    ensures still { IsErrOf result LogError.Memory → V.moment volume.new ≡ V.moment volume.old }
    ensures others { IsTrue (V.tells volume.old) → (other : ℕ) → other ≢ file
        → get (V.files volume.new) other ≡ get (V.files volume.old) other }
    ensures durable { IsTrue (V.tells volume.old) → OnOk result ((left : Files)
        → V.may_leave volume.new (V.moment volume.new) left → get left file ≡ get (V.files volume.new) file) }
    ensures kept { IsTrue (V.tells volume.old) → V.may_leave volume.new (V.moment volume.new) (V.files volume.new) }
    ensures crash { IsTrue (V.tells volume.old) → Passes (V.moment volume.old) (V.moment volume.new)
        (V.may_leave volume.old) (V.may_leave volume.new)
        (OnFile file (OnBytes (Torn (size_of (V.files volume.old) file) (length bytes.now)))) }
    ensures settled { IsTrue (V.tells volume.old) → ¬ (IsErrOf result LogError.Device) → (other : ℕ)
        → IsSettled other (V.files volume.old) (V.may_leave volume.old (V.moment volume.old))
        → IsSettled other (V.files volume.new) (V.may_leave volume.new (V.moment volume.new)) }
    ensures numbers_left { (last : ℕ) → ¬ (IsErrOf result (LogError.NumbersSpent last)) }
    ensures failed { IsErrOf result LogError.Device → Rose (V.faults volume.old) (V.faults volume.new) }
    ensures unfailed { ¬ (IsErrOf result LogError.Device) → V.faults volume.new ≡ V.faults volume.old }
    ensures stays { Stays (V.tells volume.old) (V.tells volume.new) (V.leases volume.old) (V.leases volume.new)
        (V.refs volume.old) (V.refs volume.new) (V.faults volume.old) (V.faults volume.new) }
{
    volume.append(file, bytes)?;
    volume.sync(file)?; // the bytes appended
    Ok(())
}

/// Makes a file that is empty, or empties the one that is there, and syncs it. `is_there` says whether the file is there,
/// after the call as before it.
pub fn make_empty<V: Volume>(volume: &mut V, file: u64, is_there: &mut bool) -> Result<(), LogError>
    requires known { IsTrue (V.tells volume.old) → is_there.old ≡ is_some (get (V.files volume.old) file) }
    ensures known { IsTrue (V.tells volume.old) → is_there.new ≡ is_some (get (V.files volume.new) file) }
    ensures there { OnOk result (is_there.new ≡ true) }
    ensures emptied { IsTrue (V.tells volume.old) → OnOk result (get (V.files volume.new) file ≡ Some []) }
    ensures reads { IsTrue (V.tells volume.old) → OnFile file Appears (V.files volume.old) (V.files volume.new) }
    ensures unchanged { IsTrue (V.tells volume.old) → IsErrOf result LogError.Memory
        → V.files volume.new ≡ V.files volume.old }
    ensures others { IsTrue (V.tells volume.old) → (other : ℕ) → other ≢ file
        → get (V.files volume.new) other ≡ get (V.files volume.old) other }
    ensures durable { IsTrue (V.tells volume.old) → OnOk result ((left : Files)
        → V.may_leave volume.new (V.moment volume.new) left → get left file ≡ Some []) }
    ensures kept { IsTrue (V.tells volume.old) → V.may_leave volume.new (V.moment volume.new) (V.files volume.new) }
    ensures crash { IsTrue (V.tells volume.old) → Passes (V.moment volume.old) (V.moment volume.new)
        (V.may_leave volume.old) (V.may_leave volume.new) (OnFile file Appears) }
    ensures settled { IsTrue (V.tells volume.old) → ¬ (IsErrOf result LogError.Device) → (other : ℕ)
        → IsSettled other (V.files volume.old) (V.may_leave volume.old (V.moment volume.old))
        → IsSettled other (V.files volume.new) (V.may_leave volume.new (V.moment volume.new)) }
    ensures numbers_left { (last : ℕ) → ¬ (IsErrOf result (LogError.NumbersSpent last)) }
    ensures failed { IsErrOf result LogError.Device → Rose (V.faults volume.old) (V.faults volume.new) }
    ensures unfailed { ¬ (IsErrOf result LogError.Device) → V.faults volume.new ≡ V.faults volume.old }
    ensures stays { Stays (V.tells volume.old) (V.tells volume.new) (V.leases volume.old) (V.leases volume.new)
        (V.refs volume.old) (V.refs volume.new) (V.faults volume.old) (V.faults volume.new) }
{
    if !*is_there {
        volume.create(file)?;
        *is_there = true;
    }
    volume.cut(file, 0)?;
    volume.sync(file)?; // the cut
    Ok(())
}
