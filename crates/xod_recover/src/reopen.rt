//! Opening a store: the newest root is found, and what stands above it and behind it is cut off.
ghost use Rattle.std.specs.Prelude.{◌≡◌, ◌<◌, ◌≤◌, ◌+◌, ◌*◌, ◌^◌, ℕ, suc, Some, Ok, Err, IfOk, OnOk, IsTrue};
ghost use Rattle.xod_base.specs.Causes.{Rose};
ghost use Rattle.xod_base.specs.declared.causes.Place.{Place};
ghost use Rattle.xod_volume.specs.Crash.{Passes};
ghost use Rattle.xod_volume.specs.Files.{Files};
ghost use Rattle.xod_log.specs.Ends.{IsUsed};
ghost use Rattle.xod_log.specs.Standing.{AsOpened, last_file};
ghost use Rattle.xod_audit.specs.Audits.{kinds_of};
ghost use Rattle.xod_recover.specs.declared.error.OpenError.{OpenError};
ghost use Rattle.xod_recover.specs.Check.{Newest, check, trees_under};
ghost use Rattle.xod_recover.specs.Emptied.{AreEmptied};
ghost use Rattle.xod_recover.specs.Found.{EndsWithRoot, IsRooted, newest_of};
ghost use Rattle.xod_recover.specs.Images.{AllStore, Settled, Stores, UnusedFrom};
ghost use Rattle.xod_recover.specs.Reads.{OnlyReads};
ghost use Rattle.xod_recover.specs.Recovers.{Recovers};
ghost use Rattle.xod_recover.specs.Stores.{stored_in};
ghost use Rattle.xod_recover.specs.Tails.{IsFoundIn, MayUseNext};
ghost use Rattle.xod_recover.specs.Writes.{Writes, Wrote};

use crate::emptying::clear_all;
use crate::error::OpenError;
use crate::newest::{Found, find_newest};
use crate::tail::cut_tail;
use std::alloc::Global;
use xod_volume::Volume;

/// Empties the log files above the one found, and then cuts off what stands behind its last open
/// mark. Where memory is refused, nothing was written.
fn cut_off<V: Volume>(volume: &mut V, found: &Found) -> Result<(), OpenError>
    requires room { 13 * (found.now.marks + 1) < 2 ^ 64 }
    requires was_found { IsTrue (V.tells volume.old)
        → IsFoundIn (newest_of found.now) (V.files volume.old) }
    ensures opened { IsTrue (V.tells volume.old) → OnOk result
        (AsOpened found.now.file found.now.end found.now.marks
        found.now.back (V.files volume.new) (V.may_leave volume.new (V.moment volume.new))) }
    ensures emptied { IsTrue (V.tells volume.old) → OnOk result
        (AreEmptied found.now.file (V.files volume.old) (V.files volume.new)) }
    ensures undamaged { (place : Place) → ¬ (result ≡ Err (OpenError.Damaged place)) }
    ensures device_only_after_a_fault { result ≡ Err OpenError.Device
        → Rose (V.faults volume.old) (V.faults volume.new) }
    ensures memory { result ≡ Err OpenError.Memory → V.faults volume.new ≡ V.faults volume.old }
    ensures memory_reads { result ≡ Err OpenError.Memory
        → OnlyReads V.tells V.files V.moment V.may_leave V.leases V.refs V.faults
        volume.old volume.new }
    ensures writes { Writes V.tells V.files V.moment V.may_leave V.leases V.refs V.faults
        (newest_of found.now) volume.old volume.new }
    ensures wrote { OnOk result (Wrote V.tells V.files V.moment V.may_leave V.faults
        (newest_of found.now) volume.old volume.new) }

    // Where images may use the next log file.
    ensures crash_next { IsTrue (V.tells volume.old)
        → MayUseNext (newest_of found.now) (V.files volume.old)
        (V.may_leave volume.old (V.moment volume.old))
        → Passes (V.moment volume.old) (V.moment volume.new) (V.may_leave volume.old)
        (V.may_leave volume.new) (Stores (stored_in (V.files volume.old))) }
    ensures stored_next { IsTrue (V.tells volume.old)
        → MayUseNext (newest_of found.now) (V.files volume.old)
        (V.may_leave volume.old (V.moment volume.old))
        → OnOk result (AllStore (stored_in (V.files volume.old)) (V.may_leave volume.new
        (V.moment volume.new))) }
{
    clear_all(volume, found)?;
    cut_tail(volume, found)?;
    Ok(())
}

/// Opens a store: finds the newest root that is durable, empties the log files above the one that
/// it stands in, and cuts off what stands behind its block. Where no log file is used, and where
/// the files are damaged or memory is refused, nothing is written.
pub fn recover<V: Volume>(alloc: Global, volume: &mut V) -> Result<Found, OpenError>
    ensures found { IsTrue (V.tells volume.old) → IfOk result (λ found.
        check (V.files volume.old) ≡ Ok (newest_of found)) }
    ensures kinds { IsTrue (V.tells volume.old) → IfOk result (λ found.
        kinds_of (trees_under (V.files volume.old) (newest_of found)) ≡ Some found.kinds) }
    ensures damaged { IsTrue (V.tells volume.old) → (place : Place)
        → result ≡ Err (OpenError.Damaged place)
        → check (V.files volume.old) ≡ Err place }
    ensures rooted { IfOk result IsRooted }
    ensures room { IfOk result (λ found. 13 * (found.marks + 1) < 2 ^ 64) }

    // Where a log file is used.
    ensures opened { IsTrue (V.tells volume.old) → IfOk result (λ found. 0 < found.marks
        → AsOpened found.file found.end found.marks found.back (V.files volume.new)
        (V.may_leave volume.new (V.moment volume.new))) }
    ensures root { IsTrue (V.tells volume.old) → IfOk result (λ found. 0 < found.marks
        → EndsWithRoot found (V.files volume.new)) }
    ensures emptied { IsTrue (V.tells volume.old) → IfOk result (λ found. 0 < found.marks
        → AreEmptied found.file (V.files volume.old) (V.files volume.new)) }

    // Where none is.
    ensures unused { IsTrue (V.tells volume.old) → IfOk result (λ found. found.marks ≡ 0
        → (file : ℕ) → file ≤ last_file → ¬ (IsUsed file (V.files volume.new))) }
    ensures fresh { IsTrue (V.tells volume.old) → IfOk result (λ found. found.marks ≡ 0
        → UnusedFrom 0 (V.files volume.new)) }

    // Above the log file found.
    ensures nothing_above { IsTrue (V.tells volume.old) → IfOk result (λ found.
        UnusedFrom (suc found.file) (V.files volume.new)) }
    ensures nothing_above_in_images { IsTrue (V.tells volume.old)
        → Settled (V.files volume.old) (V.may_leave volume.old (V.moment volume.old))
        → IfOk result (λ found. (left : Files) → V.may_leave volume.new (V.moment volume.new) left
        → UnusedFrom (suc found.file) left) }
    ensures settled { IsTrue (V.tells volume.old)
        → Settled (V.files volume.old) (V.may_leave volume.old (V.moment volume.old))
        → OnOk result (Settled (V.files volume.new) (V.may_leave volume.new
        (V.moment volume.new))) }

    // Where images may use the next log file, after a fault.
    ensures crash_next { IsTrue (V.tells volume.old) → (newest : Newest)
        → check (V.files volume.old) ≡ Ok newest
        → MayUseNext newest (V.files volume.old) (V.may_leave volume.old (V.moment volume.old))
        → Passes (V.moment volume.old) (V.moment volume.new) (V.may_leave volume.old)
        (V.may_leave volume.new) (Stores (stored_in (V.files volume.old))) }
    ensures stored_next { IsTrue (V.tells volume.old) → IfOk result (λ found. 0 < found.marks
        → MayUseNext (newest_of found) (V.files volume.old)
        (V.may_leave volume.old (V.moment volume.old))
        → AllStore (stored_in (V.files volume.old)) (V.may_leave volume.new
        (V.moment volume.new))) }

    // Refusals.
    ensures device_only_after_a_fault { result ≡ Err OpenError.Device
        → Rose (V.faults volume.old) (V.faults volume.new) }
    ensures unfailed { OnOk result (V.faults volume.new ≡ V.faults volume.old) }
    ensures memory { result ≡ Err OpenError.Memory → V.faults volume.new ≡ V.faults volume.old }
    ensures memory_reads { result ≡ Err OpenError.Memory
        → OnlyReads V.tells V.files V.moment V.may_leave V.leases V.refs V.faults
        volume.old volume.new }
    ensures memory_settled { IsTrue (V.tells volume.old)
        → Settled (V.files volume.old) (V.may_leave volume.old (V.moment volume.old))
        → result ≡ Err OpenError.Memory
        → Settled (V.files volume.new) (V.may_leave volume.new (V.moment volume.new)) }
    ensures damaged_reads { (place : Place) → result ≡ Err (OpenError.Damaged place)
        → OnlyReads V.tells V.files V.moment V.may_leave V.leases V.refs V.faults
        volume.old volume.new }

    // What is left, whatever was answered.
    ensures recovers { Recovers V.tells V.files V.moment V.may_leave V.leases V.refs V.faults
        volume.old volume.new }
{
    let found = find_newest(alloc, volume)?;
    if found.marks == 0 {
        return Ok(found);
    }
    cut_off(volume, &found)?;
    Ok(found)
}
