//! Emptying all log files above the one found.
//!
//! Such a file is there after a roll behind which nothing was sealed, and after a fault an image may use it.
ghost use Rattle.std.specs.Prelude.{◌≡◌, ◌==◌, ◌&&◌, ◌<◌, ◌≤◌, ◌+◌, ℕ, suc, [], get_or, length, nat_lt, false, Some, Err, OnOk, IfSome, IfNone, IsErr, IsSome, IsTrue};
ghost use Rattle.std.specs.List.{list_any};
ghost use Rattle.std.specs.FinMap.{get, keys};
ghost use Rattle.xod_base.specs.Causes.{Rose};
ghost use Rattle.xod_base.specs.declared.causes.Place.{Place};
ghost use Rattle.xod_volume.specs.Crash.{Passes};
ghost use Rattle.xod_log.specs.Ends.{body_of, ends_of};
ghost use Rattle.xod_log.specs.Standing.{last_file};
ghost use Rattle.xod_recover.specs.declared.error.OpenError.{OpenError};
ghost use Rattle.xod_recover.specs.Emptied.{AreEmptied, IsEmptied, IsPairAt};
ghost use Rattle.xod_recover.specs.Found.{newest_of};
ghost use Rattle.xod_recover.specs.Images.{Stores};
ghost use Rattle.xod_recover.specs.Reads.{OnlyReads};
ghost use Rattle.xod_recover.specs.Stores.{stored_in};
ghost use Rattle.xod_recover.specs.Tails.{AllNearAsFound, IsFoundIn, MayUseNext};
ghost use Rattle.xod_recover.specs.Writes.{Writes, Wrote};

use crate::above::clear_above;
use crate::enter::body_file;
use crate::error::OpenError;
use crate::newest::Found;
use crate::used::{ends_file, lists, log_file_of};
use xod_base::Failed;
use xod_volume::Volume;

/// Whether a volume file stands right behind a place of a list.
fn is_next(numbers: &[u64], index: usize, file: u64) -> bool
    requires { index < length numbers.now }
    ensures behind { IsTrue result → (index + 1 < length numbers.now)
        × (get_or numbers.now (index + 1) 0 ≡ file) }
    ensures not { result ≡ false → index + 1 < length numbers.now
        → get_or numbers.now (index + 1) 0 ≡ file → ⊥ }
{
    index + 1 < numbers.len() && numbers[index + 1] == file
}

/// The log file above another whose body stands at a place of a list of volume files, with its ends
/// right behind it.
fn pair_above(numbers: &[u64], index: usize, above: u32) -> Option<u32>
    requires { index < length numbers.now }
    ensures higher { IfSome result (λ file. above < file) }
    ensures body { IfSome result (λ file. get_or numbers.now index 0 ≡ body_of file) }
    ensures ends { IfSome result (λ file. (index + 1 < length numbers.now)
        × (get_or numbers.now (index + 1) 0 ≡ ends_of file)) }
    ensures none { IfNone result ((file : ℕ) → IsPairAt numbers.now index file → file ≤ last_file
        → file ≤ above) }
{
    let file = log_file_of(numbers[index])?;
    if file > above && is_next(numbers, index, ends_file(file)) {
        Some(file)
    } else {
        None
    }
}

/// Empties the log file whose pair stands at a place of the list, where it is above another.
fn clear_pair<V: Volume>(
    volume: &mut V,
    found: &Found,
    numbers: &[u64],
    index: usize,
    above: u32,
) -> Result<(), Failed>
    requires above { found.now.file ≤ above }
    requires within { index < length numbers.now }
    requires listed { IsTrue (V.tells volume.old) → (place : ℕ) → place < length numbers.now
        → IsSome (get (V.files volume.old) (get_or numbers.now place 0)) }
    requires was_found { IsTrue (V.tells volume.old)
        → IsFoundIn (newest_of found.now) (V.files volume.old) }
    ensures emptied { IsTrue (V.tells volume.old) → OnOk result ((other : ℕ)
        → IsPairAt numbers.now index other → above < other → other ≤ last_file
        → IsEmptied other (V.files volume.new)) }
    ensures stay_empty { IsTrue (V.tells volume.old) → OnOk result ((file : ℕ)
        → get (V.files volume.old) file ≡ Some [] → get (V.files volume.new) file ≡ Some []) }
    ensures failed { IsErr result → Rose (V.faults volume.old) (V.faults volume.new) }
    ensures writes { Writes V.tells V.files V.moment V.may_leave V.leases V.refs V.faults
        (newest_of found.now) volume.old volume.new }
    ensures wrote { OnOk result (Wrote V.tells V.files V.moment V.may_leave V.faults
        (newest_of found.now) volume.old volume.new) }
    ensures near { IsTrue (V.tells volume.old)
        → AllNearAsFound (newest_of found.now) (V.files volume.old)
        (V.may_leave volume.old (V.moment volume.old))
        → OnOk result (AllNearAsFound (newest_of found.now) (V.files volume.new)
        (V.may_leave volume.new (V.moment volume.new))) }
{
    match pair_above(numbers, index, above) {
        None => Ok(()),
        Some(other) => {
            clear_above(volume, found, other)?;
            Ok(())
        }
    }
}

/// Empties each log file above another, of those whose volume files are listed by rising number.
fn clear_listed<V: Volume>(
    volume: &mut V,
    found: &Found,
    numbers: &[u64],
    above: u32,
) -> Result<(), Failed>
    requires above { found.now.file ≤ above }
    requires listed { IsTrue (V.tells volume.old) → (place : ℕ) → place < length numbers.now
        → IsSome (get (V.files volume.old) (get_or numbers.now place 0)) }
    requires was_found { IsTrue (V.tells volume.old)
        → IsFoundIn (newest_of found.now) (V.files volume.old) }
    ensures emptied { IsTrue (V.tells volume.old) → OnOk result ((index : ℕ)
        → index < length numbers.now → (other : ℕ) → IsPairAt numbers.now index other
        → above < other → other ≤ last_file → IsEmptied other (V.files volume.new)) }
    ensures stay_empty { IsTrue (V.tells volume.old) → OnOk result ((file : ℕ)
        → get (V.files volume.old) file ≡ Some [] → get (V.files volume.new) file ≡ Some []) }
    ensures failed { IsErr result → Rose (V.faults volume.old) (V.faults volume.new) }
    ensures writes { Writes V.tells V.files V.moment V.may_leave V.leases V.refs V.faults
        (newest_of found.now) volume.old volume.new }
    ensures wrote { OnOk result (Wrote V.tells V.files V.moment V.may_leave V.faults
        (newest_of found.now) volume.old volume.new) }
    ensures near { IsTrue (V.tells volume.old)
        → AllNearAsFound (newest_of found.now) (V.files volume.old)
        (V.may_leave volume.old (V.moment volume.old))
        → OnOk result (AllNearAsFound (newest_of found.now) (V.files volume.new)
        (V.may_leave volume.new (V.moment volume.new))) }
{
    for index in 0..numbers.len() {
        clear_pair(volume, found, numbers, index, above)?;
    }
    Ok(())
}

/// Whether a log file is above the one found, and both its volume files are listed.
fn has_pair_above(numbers: &[u64], found: u32, next: u32) -> bool
    ensures { result ≡ (nat_lt found next && (list_any (λ other. other == body_of next) numbers.now
        && list_any (λ other. other == ends_of next) numbers.now)) }
{
    next > found && (lists(numbers, body_file(next)) && lists(numbers, ends_file(next)))
}

/// Empties the log file right above the one found, where both its volume files are listed. It comes
/// before the others, since an image may use it after a fault.
fn clear_next<V: Volume>(
    volume: &mut V,
    found: &Found,
    numbers: &[u64],
    next: u32,
) -> Result<(), Failed>
    requires next { found.now.file < last_file → next ≡ suc found.now.file }
    requires listed { IsTrue (V.tells volume.old) → numbers.now ≡ keys (V.files volume.old) }
    requires was_found { IsTrue (V.tells volume.old)
        → IsFoundIn (newest_of found.now) (V.files volume.old) }
    ensures emptied { IsTrue (V.tells volume.old) → OnOk result (found.now.file < next
        → IsSome (get (V.files volume.old) (body_of next))
        → IsSome (get (V.files volume.old) (ends_of next)) → IsEmptied next (V.files volume.new)) }
    ensures failed { IsErr result → Rose (V.faults volume.old) (V.faults volume.new) }
    ensures writes { Writes V.tells V.files V.moment V.may_leave V.leases V.refs V.faults
        (newest_of found.now) volume.old volume.new }
    ensures wrote { OnOk result (Wrote V.tells V.files V.moment V.may_leave V.faults
        (newest_of found.now) volume.old volume.new) }
    ensures near { IsTrue (V.tells volume.old)
        → AllNearAsFound (newest_of found.now) (V.files volume.old)
        (V.may_leave volume.old (V.moment volume.old))
        → OnOk result (AllNearAsFound (newest_of found.now) (V.files volume.new)
        (V.may_leave volume.new (V.moment volume.new))) }

    // Where images may use the next log file.
    ensures crash_next { IsTrue (V.tells volume.old)
        → MayUseNext (newest_of found.now) (V.files volume.old)
        (V.may_leave volume.old (V.moment volume.old))
        → Passes (V.moment volume.old) (V.moment volume.new) (V.may_leave volume.old)
        (V.may_leave volume.new) (Stores (stored_in (V.files volume.old))) }
    ensures as_found { IsTrue (V.tells volume.old)
        → MayUseNext (newest_of found.now) (V.files volume.old)
        (V.may_leave volume.old (V.moment volume.old))
        → OnOk result (AllNearAsFound (newest_of found.now) (V.files volume.new)
        (V.may_leave volume.new (V.moment volume.new))) }
{
    if !has_pair_above(numbers, found.file, next) {
        return Ok(());
    }
    clear_above(volume, found, next)?;
    Ok(())
}

/// Empties each log file above the one found. Where memory is refused, nothing was written.
pub fn clear_all<V: Volume>(volume: &mut V, found: &Found) -> Result<(), OpenError>
    requires was_found { IsTrue (V.tells volume.old)
        → IsFoundIn (newest_of found.now) (V.files volume.old) }
    ensures emptied { IsTrue (V.tells volume.old) → OnOk result
        (AreEmptied found.now.file (V.files volume.old) (V.files volume.new)) }
    ensures undamaged { (place : Place) → ¬ (result ≡ Err (OpenError.Damaged place)) }
    ensures device_only_after_a_fault { result ≡ Err OpenError.Device
        → Rose (V.faults volume.old) (V.faults volume.new) }
    ensures memory { result ≡ Err OpenError.Memory → V.faults volume.new ≡ V.faults volume.old }
    ensures memory_reads { result ≡ Err OpenError.Memory
        → OnlyReads V.tells V.files V.moment V.may_leave V.leases V.refs V.faults
        volume.old volume.new }
    ensures writes { Writes V.tells V.files V.moment V.may_leave V.leases V.refs V.faults
        (newest_of found.now) volume.old volume.new }
    ensures wrote { OnOk result (Wrote V.tells V.files V.moment V.may_leave V.faults
        (newest_of found.now) volume.old volume.new) }
    ensures near { IsTrue (V.tells volume.old)
        → AllNearAsFound (newest_of found.now) (V.files volume.old)
        (V.may_leave volume.old (V.moment volume.old))
        → OnOk result (AllNearAsFound (newest_of found.now) (V.files volume.new)
        (V.may_leave volume.new (V.moment volume.new))) }

    // Where images may use the next log file.
    ensures crash_next { IsTrue (V.tells volume.old)
        → MayUseNext (newest_of found.now) (V.files volume.old)
        (V.may_leave volume.old (V.moment volume.old))
        → Passes (V.moment volume.old) (V.moment volume.new) (V.may_leave volume.old)
        (V.may_leave volume.new) (Stores (stored_in (V.files volume.old))) }
    ensures as_found { IsTrue (V.tells volume.old)
        → MayUseNext (newest_of found.now) (V.files volume.old)
        (V.may_leave volume.old (V.moment volume.old))
        → OnOk result (AllNearAsFound (newest_of found.now) (V.files volume.new)
        (V.may_leave volume.new (V.moment volume.new))) }
{
    let numbers = volume.files()?;
    let next = found.file.saturating_add(1);
    clear_next(volume, found, &numbers, next)?;
    clear_listed(volume, found, &numbers, next)?;
    Ok(())
}
