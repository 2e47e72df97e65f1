//! What an opening writes after a fault: log files above the one found are emptied.
//!
//! They come first: the rule of `cut_tail` is for images that use no log file above the one found.
ghost use Rattle.std.specs.Prelude.{◌≡◌, ◌<◌, ℕ, [], Some, OnOk, IsErr, IsSome, IsTrue};
ghost use mathlib.Core.Logic.{◌≢◌};
ghost use Rattle.std.specs.FinMap.{get};
ghost use Rattle.xod_base.specs.Causes.{Rose};
ghost use Rattle.xod_volume.specs.Files.{Files};
ghost use Rattle.xod_volume.specs.Crash.{Passes};
ghost use Rattle.xod_volume.specs.Leases.{Stays};
ghost use Rattle.xod_log.specs.Ends.{body_of, ends_of};
ghost use Rattle.xod_recover.specs.Found.{newest_of};
ghost use Rattle.xod_recover.specs.Images.{Settled, Stores};
ghost use Rattle.xod_recover.specs.Keeping.{KeepsFound};
ghost use Rattle.xod_recover.specs.Stores.{stored_in};
ghost use Rattle.xod_recover.specs.Tails.{AllNear, AllNearAsFound, AllNearBut, IsFoundIn};

use crate::enter::body_file;
use crate::newest::Found;
use crate::tail::cut_synced;
use crate::used::ends_file;
use xod_base::Failed;
use xod_volume::Volume;

/// Empties a log file above the one found, of which both volume files are there: the ends before
/// the body, and each is synced before the next is cut.
pub fn clear_above<V: Volume>(volume: &mut V, found: &Found, other: u32) -> Result<(), Failed>
    requires above { found.now.file < other }
    requires has_body { IsTrue (V.tells volume.old)
        → IsSome (get (V.files volume.old) (body_of other)) }
    requires has_ends { IsTrue (V.tells volume.old)
        → IsSome (get (V.files volume.old) (ends_of other)) }
    requires was_found { IsTrue (V.tells volume.old)
        → IsFoundIn (newest_of found.now) (V.files volume.old) }
    ensures still_found { IsTrue (V.tells volume.old)
        → OnOk result (IsFoundIn (newest_of found.now) (V.files volume.new)) }
    ensures empty { IsTrue (V.tells volume.old) → OnOk result (get (V.files volume.new)
        (body_of other) ≡ Some []) }
    ensures empty_ends { IsTrue (V.tells volume.old)
        → OnOk result (get (V.files volume.new) (ends_of other) ≡ Some []) }
    ensures keeps { IsTrue (V.tells volume.old)
        → KeepsFound (newest_of found.now) (V.files volume.old) (V.files volume.new) }
    ensures others { IsTrue (V.tells volume.old) → (file : ℕ) → file ≢ body_of other
        → file ≢ ends_of other
        → get (V.files volume.new) file ≡ get (V.files volume.old) file }
    ensures failed { IsErr result → Rose (V.faults volume.old) (V.faults volume.new) }
    ensures unfailed { OnOk result (V.faults volume.new ≡ V.faults volume.old) }
    ensures stays { Stays (V.tells volume.old) (V.tells volume.new) (V.leases volume.old)
        (V.leases volume.new) (V.refs volume.old) (V.refs volume.new) (V.faults volume.old)
        (V.faults volume.new) }

    // What a crash may leave.
    ensures crash { IsTrue (V.tells volume.old)
        → AllNearBut (newest_of found.now) other (V.files volume.old)
        (V.may_leave volume.old (V.moment volume.old))
        → Passes (V.moment volume.old) (V.moment volume.new) (V.may_leave volume.old)
        (V.may_leave volume.new) (Stores (stored_in (V.files volume.old))) }
    ensures kept { IsTrue (V.tells volume.old) → V.may_leave volume.new (V.moment volume.new)
        (V.files volume.new) }
    ensures near { IsTrue (V.tells volume.old)
        → AllNearBut (newest_of found.now) other (V.files volume.old)
        (V.may_leave volume.old (V.moment volume.old))
        → OnOk result (AllNear (newest_of found.now) (V.files volume.new) (V.may_leave volume.new
        (V.moment volume.new))) }
    ensures as_found { IsTrue (V.tells volume.old)
        → AllNearBut (newest_of found.now) other (V.files volume.old)
        (V.may_leave volume.old (V.moment volume.old))
        → OnOk result (AllNearAsFound (newest_of found.now) (V.files volume.new)
        (V.may_leave volume.new (V.moment volume.new))) }
    ensures settled { IsTrue (V.tells volume.old)
        → Settled (V.files volume.old) (V.may_leave volume.old (V.moment volume.old))
        → OnOk result (Settled (V.files volume.new) (V.may_leave volume.new
        (V.moment volume.new))) }
{
    let body = body_file(other);
    let ends = ends_file(other);
    cut_synced(volume, ends, 0)?;
    cut_synced(volume, body, 0)?;
    Ok(())
}
