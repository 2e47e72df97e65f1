//! The two volume files of a log file, and how a pair without blocks is made.
ghost use Rattle.std.specs.Prelude.{◌≡◌, ◌≤◌, ◌+◌, ◌*◌, ◌==◌, ◌||◌, ◌&&◌, ℕ, Bool, true, [], is_some, OnOk, IsErrOf, IsTrue, Some};
ghost use mathlib.Core.Logic.{◌≢◌};
ghost use Rattle.std.specs.List.{list_any};
ghost use Rattle.std.specs.FinMap.{get};
ghost use Rattle.xod_base.specs.Causes.{Rose};
ghost use Rattle.xod_volume.specs.Files.{Files};
ghost use Rattle.xod_volume.specs.Crash.{Appears, OnFile, Passes};
ghost use Rattle.xod_volume.specs.Leases.{Stays};
ghost use Rattle.xod_log.specs.declared.error.LogError.{LogError};
ghost use Rattle.xod_log.specs.Ends.{body_of, ends_of};
ghost use Rattle.xod_log.specs.Standing.{IsSettled, has_pair};
ghost use Rattle.xod_log.specs.Calls.{IsEmptyPair, MakesPair, no_mark};

use crate::device::{append_synced, make_empty};
use crate::error::LogError;
use xod_volume::Volume;

/// The volume file of a log file's body.
pub fn body_file(file: u32) -> u64
    ensures { result ≡ body_of file }
{
    2 * u64::from(file)
}

/// The volume file of a log file's ends.
pub fn ends_file(file: u32) -> u64
    ensures { result ≡ ends_of file }
{
    2 * u64::from(file) + 1
}

/// Whether the list has the number.
pub fn lists(numbers: &[u64], file: u64) -> bool
    ensures { result ≡ list_any (λ other. other == file) numbers.now }
{
    numbers.contains(&file)
}

/// Says of a thing that it is there, where it was found.
fn found(is_there: &mut bool, here: bool)
    ensures { is_there.new ≡ (is_there.old || here) }
{
    *is_there = *is_there || here;
}

/// Makes one file of a pair empty, as `make_empty` does. `has_file` says whether it is there, and `has_other` whether the
/// other one is; `is_there` says so of the pair as soon as both are.
fn make_part<V: Volume>(
    volume: &mut V,
    file: u64,
    has_file: bool,
    has_other: bool,
    is_there: &mut bool,
) -> Result<(), LogError>
    requires known { IsTrue (V.tells volume.old) → has_file ≡ is_some (get (V.files volume.old) file) }
    ensures known { IsTrue (V.tells volume.old) → is_there.new
        ≡ (is_there.old || (is_some (get (V.files volume.new) file) && has_other)) }
    ensures there { OnOk result (is_there.new ≡ (is_there.old || has_other)) }
    ensures never_lost { is_there.old ≡ true → is_there.new ≡ true }
    ensures emptied { IsTrue (V.tells volume.old) → OnOk result (get (V.files volume.new) file ≡ Some []) }
    ensures reads { IsTrue (V.tells volume.old) → OnFile file Appears (V.files volume.old) (V.files volume.new) }
    ensures others { IsTrue (V.tells volume.old) → (other : ℕ) → other ≢ file
        → get (V.files volume.new) other ≡ get (V.files volume.old) other }
    ensures durable { IsTrue (V.tells volume.old) → OnOk result ((left : Files)
        → V.may_leave volume.new (V.moment volume.new) left → get left file ≡ Some []) }
    ensures kept { IsTrue (V.tells volume.old) → V.may_leave volume.new (V.moment volume.new) (V.files volume.new) }
    ensures crash { IsTrue (V.tells volume.old) → Passes (V.moment volume.old) (V.moment volume.new)
        (V.may_leave volume.old) (V.may_leave volume.new) (OnFile file Appears) }
    ensures settled { IsTrue (V.tells volume.old) → ¬ (IsErrOf result LogError.Device) → (other : ℕ)
        → IsSettled other (V.files volume.old) (V.may_leave volume.old (V.moment volume.old))
        → IsSettled other (V.files volume.new) (V.may_leave volume.new (V.moment volume.new)) }
    ensures numbers_left { (last : ℕ) → ¬ (IsErrOf result (LogError.NumbersSpent last)) }
    ensures failed { IsErrOf result LogError.Device → Rose (V.faults volume.old) (V.faults volume.new) }
    ensures unfailed { ¬ (IsErrOf result LogError.Device) → V.faults volume.new ≡ V.faults volume.old }
    ensures stays { Stays (V.tells volume.old) (V.tells volume.new) (V.leases volume.old) (V.leases volume.new)
        (V.refs volume.old) (V.refs volume.new) (V.faults volume.old) (V.faults volume.new) }
{
    let mut is_made = has_file;
    let answer = make_empty(volume, file, &mut is_made);
    found(is_there, is_made && has_other);
    answer
}

/// Makes the pair of a log file, without blocks. What was there is lost, so the log file must not be used. First the ends
/// are emptied and synced: a body never comes to stand beside ends with an open mark. `is_there` says whether the log file
/// is there, after the call as before it.
pub fn make_pair<V: Volume>(volume: &mut V, file: u32, is_there: &mut bool) -> Result<(), LogError>
    ensures made { IsTrue (V.tells volume.old) → OnOk result (IsEmptyPair file (V.files volume.new)) }
    ensures reads { IsTrue (V.tells volume.old) → MakesPair file (V.files volume.old) (V.files volume.new) }
    ensures others { IsTrue (V.tells volume.old) → (other : ℕ) → other ≢ body_of file → other ≢ ends_of file
        → get (V.files volume.new) other ≡ get (V.files volume.old) other }
    ensures known { IsTrue (V.tells volume.old)
        → is_there.old ≡ has_pair (V.files volume.old) file → is_there.new ≡ has_pair (V.files volume.new) file }
    ensures there { OnOk result (is_there.new ≡ true) }
    ensures never_lost { is_there.old ≡ true → is_there.new ≡ true }
    ensures durable { IsTrue (V.tells volume.old) → OnOk result ((left : Files)
        → V.may_leave volume.new (V.moment volume.new) left → IsEmptyPair file left) }
    ensures settled { IsTrue (V.tells volume.old) → ¬ (IsErrOf result LogError.Device) → (other : ℕ)
        → IsSettled other (V.files volume.old) (V.may_leave volume.old (V.moment volume.old))
        → IsSettled other (V.files volume.new) (V.may_leave volume.new (V.moment volume.new)) }
    ensures kept { IsTrue (V.tells volume.old) → V.may_leave volume.old (V.moment volume.old) (V.files volume.old)
        → V.may_leave volume.new (V.moment volume.new) (V.files volume.new) }
    ensures crash { IsTrue (V.tells volume.old) → Passes (V.moment volume.old) (V.moment volume.new)
        (V.may_leave volume.old) (V.may_leave volume.new) (MakesPair file) }
    ensures numbers_left { (last : ℕ) → ¬ (IsErrOf result (LogError.NumbersSpent last)) }
    ensures failed { IsErrOf result LogError.Device → Rose (V.faults volume.old) (V.faults volume.new) }
    ensures unfailed { ¬ (IsErrOf result LogError.Device) → V.faults volume.new ≡ V.faults volume.old }
    ensures stays { Stays (V.tells volume.old) (V.tells volume.new) (V.leases volume.old) (V.leases volume.new)
        (V.refs volume.old) (V.refs volume.new) (V.faults volume.old) (V.faults volume.new) }
{
    let body = body_file(file);
    let ends = ends_file(file);
    let present = volume.files()?;
    let has_ends = lists(&present, ends);
    let has_body = lists(&present, body);
    make_part(volume, ends, has_ends, has_body, is_there)?;
    make_part(volume, body, has_body, true, is_there)?;
    append_synced(volume, ends, &[0; 13])?;
    Ok(())
}
