//! What an opening writes: what stands behind the last open mark is cut off.
//!
//! `find_newest` hands in what it found. An image on the way stores what one at the start did, or
//! what was found: the rule stands in `specs/Tails.antt`.
ghost use Rattle.std.specs.Prelude.{◌≡◌, ◌<◌, ◌≤◌, ◌+◌, ◌*◌, ◌^◌, ℕ, length, take, OnOk, IsErr, IsSome, IsTrue};
ghost use mathlib.Core.Logic.{◌≢◌};
ghost use Rattle.std.specs.FinMap.{get, insert};
ghost use Rattle.xod_base.specs.Causes.{Rose};
ghost use Rattle.xod_volume.specs.Files.{Files, bytes_of, size_of, overwritten};
ghost use Rattle.xod_volume.specs.Crash.{OnFile, OnBytes, Torn, Shortened, Passes};
ghost use Rattle.xod_volume.specs.Leases.{Stays};
ghost use Rattle.xod_log.specs.Ends.{body_of, ends_of};
ghost use Rattle.xod_log.specs.Standing.{AsOpened};
ghost use Rattle.xod_recover.specs.Found.{newest_of};
ghost use Rattle.xod_recover.specs.Images.{AllStore, Settled, Stores};
ghost use Rattle.xod_recover.specs.Keeping.{KeepsFound};
ghost use Rattle.xod_recover.specs.Stores.{stored_in};
ghost use Rattle.xod_recover.specs.Tails.{AllNear, IsFoundIn};

use crate::enter::body_file;
use crate::newest::Found;
use crate::used::ends_file;
use xod_base::Failed;
use xod_volume::Volume;

/// Cuts a file, and syncs it.
pub fn cut_synced<V: Volume>(volume: &mut V, file: u64, kept: u64) -> Result<(), Failed>
    requires exists { IsTrue (V.tells volume.old) → IsSome (get (V.files volume.old) file) }
    requires no_longer { IsTrue (V.tells volume.old) → kept ≤ size_of (V.files volume.old) file }
    ensures shortened { IsTrue (V.tells volume.old) → OnOk result (V.files volume.new
        ≡ insert (V.files volume.old) file (take kept (bytes_of (V.files volume.old) file))) }
    ensures others { IsTrue (V.tells volume.old) → (other : ℕ) → other ≢ file
        → get (V.files volume.new) other ≡ get (V.files volume.old) other }
    ensures reads { IsTrue (V.tells volume.old) → OnFile file (OnBytes (Shortened kept))
        (V.files volume.old) (V.files volume.new) }
    ensures failed { IsErr result → Rose (V.faults volume.old) (V.faults volume.new) }
    ensures unfailed { OnOk result (V.faults volume.new ≡ V.faults volume.old) }
    ensures stays { Stays (V.tells volume.old) (V.tells volume.new) (V.leases volume.old)
        (V.leases volume.new) (V.refs volume.old) (V.refs volume.new) (V.faults volume.old)
        (V.faults volume.new) }

    // What a crash may leave.
    ensures durable { IsTrue (V.tells volume.old) → OnOk result ((left : Files)
        → V.may_leave volume.new (V.moment volume.new) left
        → get left file ≡ get (V.files volume.new) file) }
    ensures crash { IsTrue (V.tells volume.old) → Passes (V.moment volume.old) (V.moment volume.new)
        (V.may_leave volume.old) (V.may_leave volume.new) (OnFile file (OnBytes (Shortened kept))) }
    ensures kept { IsTrue (V.tells volume.old) → V.may_leave volume.new (V.moment volume.new)
        (V.files volume.new) }
{
    volume.cut(file, kept)?;
    volume.sync(file)?; // the cut
    Ok(())
}

/// Writes bytes over those of a file from a place on, and syncs it.
fn write_synced<V: Volume>(volume: &mut V, file: u64, at: u64, bytes: &[u8]) -> Result<(), Failed>
    requires exists { IsTrue (V.tells volume.old) → IsSome (get (V.files volume.old) file) }
    requires within { IsTrue (V.tells volume.old)
        → at + length bytes.now ≤ size_of (V.files volume.old) file }
    ensures written { IsTrue (V.tells volume.old) → OnOk result (V.files volume.new
        ≡ insert (V.files volume.old) file
        (overwritten (bytes_of (V.files volume.old) file) at bytes.now)) }
    ensures others { IsTrue (V.tells volume.old) → (other : ℕ) → other ≢ file
        → get (V.files volume.new) other ≡ get (V.files volume.old) other }
    ensures reads { IsTrue (V.tells volume.old) → OnFile file (OnBytes (Torn at (length bytes.now)))
        (V.files volume.old) (V.files volume.new) }
    ensures failed { IsErr result → Rose (V.faults volume.old) (V.faults volume.new) }
    ensures unfailed { OnOk result (V.faults volume.new ≡ V.faults volume.old) }
    ensures stays { Stays (V.tells volume.old) (V.tells volume.new) (V.leases volume.old)
        (V.leases volume.new) (V.refs volume.old) (V.refs volume.new) (V.faults volume.old)
        (V.faults volume.new) }

    // What a crash may leave.
    ensures durable { IsTrue (V.tells volume.old) → OnOk result ((left : Files)
        → V.may_leave volume.new (V.moment volume.new) left
        → get left file ≡ get (V.files volume.new) file) }
    ensures crash { IsTrue (V.tells volume.old) → Passes (V.moment volume.old) (V.moment volume.new)
        (V.may_leave volume.old) (V.may_leave volume.new)
        (OnFile file (OnBytes (Torn at (length bytes.now)))) }
    ensures kept { IsTrue (V.tells volume.old) → V.may_leave volume.new (V.moment volume.new)
        (V.files volume.new) }
{
    volume.write_at(file, at, bytes)?;
    volume.sync(file)?; // the bytes written
    Ok(())
}

/// Cuts the pair of the log file found behind its last open mark, and puts a closed mark behind
/// the open ones. The ends come before the body, and each is synced before the next is written:
/// so no image has an open mark whose block is cut.
pub fn cut_tail<V: Volume>(volume: &mut V, found: &Found) -> Result<(), Failed>
    requires room { 13 * (found.now.marks + 1) < 2 ^ 64 }
    requires was_found { IsTrue (V.tells volume.old)
        → IsFoundIn (newest_of found.now) (V.files volume.old) }
    ensures opened { IsTrue (V.tells volume.old) → OnOk result
        (AsOpened found.now.file found.now.end found.now.marks
        found.now.back (V.files volume.new) (V.may_leave volume.new (V.moment volume.new))) }
    ensures keeps { IsTrue (V.tells volume.old)
        → KeepsFound (newest_of found.now) (V.files volume.old) (V.files volume.new) }
    ensures still_found { IsTrue (V.tells volume.old)
        → OnOk result (IsFoundIn (newest_of found.now) (V.files volume.new)) }
    ensures others { IsTrue (V.tells volume.old) → (other : ℕ) → other ≢ body_of found.now.file
        → other ≢ ends_of found.now.file
        → get (V.files volume.new) other ≡ get (V.files volume.old) other }
    ensures failed { IsErr result → Rose (V.faults volume.old) (V.faults volume.new) }
    ensures unfailed { OnOk result (V.faults volume.new ≡ V.faults volume.old) }
    ensures stays { Stays (V.tells volume.old) (V.tells volume.new) (V.leases volume.old)
        (V.leases volume.new) (V.refs volume.old) (V.refs volume.new) (V.faults volume.old)
        (V.faults volume.new) }

    // What a crash may leave.
    ensures crash { IsTrue (V.tells volume.old)
        → AllNear (newest_of found.now) (V.files volume.old)
        (V.may_leave volume.old (V.moment volume.old))
        → Passes (V.moment volume.old) (V.moment volume.new) (V.may_leave volume.old)
        (V.may_leave volume.new) (Stores (stored_in (V.files volume.old))) }
    ensures kept { IsTrue (V.tells volume.old) → V.may_leave volume.new (V.moment volume.new)
        (V.files volume.new) }
    ensures stored { IsTrue (V.tells volume.old)
        → AllNear (newest_of found.now) (V.files volume.old)
        (V.may_leave volume.old (V.moment volume.old))
        → OnOk result (AllStore (stored_in (V.files volume.old)) (V.may_leave volume.new
        (V.moment volume.new))) }
    ensures settled { IsTrue (V.tells volume.old)
        → Settled (V.files volume.old) (V.may_leave volume.old (V.moment volume.old))
        → OnOk result (Settled (V.files volume.new) (V.may_leave volume.new
        (V.moment volume.new))) }
{
    let body = body_file(found.file);
    let ends = ends_file(found.file);
    cut_synced(volume, ends, 13 * (found.marks + 1))?;
    cut_synced(volume, body, found.end)?;
    write_synced(volume, ends, 13 * found.marks, &[0; 13])?;
    Ok(())
}
