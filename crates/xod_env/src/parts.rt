//! What an environment does to a volume and a log.
//!
//! Each step is a call of the log or two. Roots and commit stand in clauses alone: whoever knows
//! them to be the environment's (`IsAt`) learns where it is after the step, and what a crash
//! leaves of it.
ghost use Rattle.std.specs.Prelude.{◌≡◌, ◌<◌, ◌≤◌, ◌⊎◌, ◌↔◌, ◌+◌, ◌^◌, ℕ, false, true, if◌then◌else◌, length, is_ok, Err, IfOk, IsErr, IsErrOf, IsOk, IsTrue, OnErr, OnOk, Some};
ghost use Rattle.std.specs.FinMap.{contains_key, get};
ghost use Rattle.xod_base.specs.Causes.{Rose};
ghost use Rattle.xod_log.specs.declared.error.LogError.{LogError};
ghost use Rattle.xod_log.specs.Calls.{MakesPair};
ghost use Rattle.xod_log.specs.Ends.{IsUsed};
ghost use Rattle.xod_log.specs.Standing.{Stands, appended_log, body_file, empty_log, has_pair, is_due, last_file, rolled_log, sealed_log};
ghost use Rattle.xod_recover.specs.Images.{AllStore, Settled, Stores};
ghost use Rattle.xod_recover.specs.Stores.{stored_in};
ghost use Rattle.xod_root.specs.Roots.{Roots};
ghost use Rattle.xod_volume.specs.Crash.{Passes};
ghost use Rattle.xod_volume.specs.Leases.{Stays};
ghost use Rattle.xod_env.specs.Blocks.{IsNextBlock, trees_with};
ghost use Rattle.xod_env.specs.Envs.{ArePlaced, IsAt, IsSteady, env_trees, log_file_count, newest_stored, no_roots};

use xod_log::{Log, LogError};
use xod_volume::Volume;

/// Makes the newest commit outlive a crash.
pub(crate) fn seal_newest<V: Volume>(volume: &mut V, log: &mut Log) -> Result<(), LogError>
    requires stands { IsTrue (V.tells volume.old) → Stands log.old (V.files volume.old)
        (V.may_leave volume.old (V.moment volume.old)) }
    ensures log { log.new ≡ (if is_ok result then sealed_log log.old else log.old) }
    ensures nothing_to_do { log.old.is_sealed ≡ true
        → IsOk result × (volume.new ≡ volume.old) }
    ensures numbers_left { (last : ℕ) → ¬ (IsErrOf result (LogError.NumbersSpent last)) }
    ensures failed { IsErrOf result LogError.Device
        → Rose (V.faults volume.old) (V.faults volume.new) }
    ensures unfailed { ¬ (IsErrOf result LogError.Device)
        → V.faults volume.new ≡ V.faults volume.old }
    ensures stays { Stays (V.tells volume.old) (V.tells volume.new)
        (V.leases volume.old) (V.leases volume.new) (V.refs volume.old) (V.refs volume.new)
        (V.faults volume.old) (V.faults volume.new) }

    // Where the environment is told.
    ensures at { IsTrue (V.tells volume.old) → (roots : Roots) (commit : ℕ)
        → IsAt log.old roots commit (V.files volume.old)
        (V.may_leave volume.old (V.moment volume.old))
        → ¬ (IsErrOf result LogError.Device) → IsAt log.new roots commit (V.files volume.new)
        (V.may_leave volume.new (V.moment volume.new)) }
    ensures trees { IsTrue (V.tells volume.old) → (roots : Roots)
        → env_trees log.old.file (V.files volume.new) roots
        ≡ env_trees log.old.file (V.files volume.old) roots }
    ensures stores { IsTrue (V.tells volume.old) → (roots : Roots) (commit : ℕ)
        → IsAt log.old roots commit (V.files volume.old)
        (V.may_leave volume.old (V.moment volume.old))
        → ArePlaced log.old roots → OnOk result (stored_in (V.files volume.new)
        ≡ Some (newest_stored log.old.file (V.files volume.old) roots commit)) }
    ensures count { IsTrue (V.tells volume.old)
        → log_file_count (V.files volume.new) ≡ log_file_count (V.files volume.old) }
    ensures body_stays { IsTrue (V.tells volume.old)
        → contains_key (V.files volume.new) (body_file log.old) ≡ true }

    // What a crash may leave.
    ensures kept { IsTrue (V.tells volume.old)
        → V.may_leave volume.old (V.moment volume.old) (V.files volume.old)
        → V.may_leave volume.new (V.moment volume.new) (V.files volume.new) }
    ensures crash { IsTrue (V.tells volume.old) → (roots : Roots) (commit : ℕ)
        → IsAt log.old roots commit (V.files volume.old)
        (V.may_leave volume.old (V.moment volume.old))
        → ArePlaced log.old roots → IsSteady log.old (V.files volume.old)
        (V.may_leave volume.old (V.moment volume.old))
        → Passes (V.moment volume.old) (V.moment volume.new)
        (V.may_leave volume.old) (V.may_leave volume.new)
        (Stores (Some (newest_stored log.old.file (V.files volume.old) roots commit))) }
    ensures steady { IsTrue (V.tells volume.old) → (roots : Roots) (commit : ℕ)
        → IsAt log.old roots commit (V.files volume.old)
        (V.may_leave volume.old (V.moment volume.old))
        → IsSteady log.old (V.files volume.old)
        (V.may_leave volume.old (V.moment volume.old))
        → ¬ (IsErrOf result LogError.Device)
        → IsSteady log.new (V.files volume.new)
        (V.may_leave volume.new (V.moment volume.new)) }
    ensures durable { IsTrue (V.tells volume.old) → (roots : Roots) (commit : ℕ)
        → IsAt log.old roots commit (V.files volume.old)
        (V.may_leave volume.old (V.moment volume.old))
        → ArePlaced log.old roots → IsSteady log.old (V.files volume.old)
        (V.may_leave volume.old (V.moment volume.old))
        → OnOk result (AllStore
        (Some (newest_stored log.old.file (V.files volume.old) roots commit))
        (V.may_leave volume.new (V.moment volume.new))) }
    ensures settled { IsTrue (V.tells volume.old) → (roots : Roots) (commit : ℕ)
        → IsAt log.old roots commit (V.files volume.old)
        (V.may_leave volume.old (V.moment volume.old))
        → ArePlaced log.old roots → IsSteady log.old (V.files volume.old)
        (V.may_leave volume.old (V.moment volume.old))
        → OnOk result (Settled (V.files volume.new)
        (V.may_leave volume.new (V.moment volume.new))) }
{
    log.seal(volume)
}

/// Appends the block of the next commit, where no roll comes first.
pub(crate) fn append_newest<V: Volume>(
    volume: &mut V,
    log: &mut Log,
    block: &[u8],
    back: u32,
) -> Result<(), LogError>
    requires stands { IsTrue (V.tells volume.old) → Stands log.old (V.files volume.old)
        (V.may_leave volume.old (V.moment volume.old)) }
    requires not_due { is_due log.old ≡ false }
    ensures log { OnOk result (log.new ≡ appended_log log.old (length block.now) back) }
    ensures refused { OnErr result (log.new ≡ log.old) }
    ensures fits { OnOk result (log.new.end < 2 ^ 64) }
    ensures numbers_left { (last : ℕ) → ¬ (IsErrOf result (LogError.NumbersSpent last)) }
    ensures failed { IsErrOf result LogError.Device
        → Rose (V.faults volume.old) (V.faults volume.new) }
    ensures unfailed { ¬ (IsErrOf result LogError.Device)
        → V.faults volume.new ≡ V.faults volume.old }
    ensures stays { Stays (V.tells volume.old) (V.tells volume.new)
        (V.leases volume.old) (V.leases volume.new) (V.refs volume.old) (V.refs volume.new)
        (V.faults volume.old) (V.faults volume.new) }

    // Where the environment is told.
    ensures at { IsTrue (V.tells volume.old) → (roots : Roots) (commit : ℕ)
        (new_roots : Roots) (new_commit : ℕ)
        → IsAt log.old roots commit (V.files volume.old)
        (V.may_leave volume.old (V.moment volume.old))
        → IsNextBlock log.old (V.files volume.old) block.now back new_roots new_commit
        → OnOk result (IsAt log.new new_roots new_commit (V.files volume.new)
        (V.may_leave volume.new (V.moment volume.new))) }
    ensures at_kept { IsTrue (V.tells volume.old) → (roots : Roots) (commit : ℕ)
        → IsAt log.old roots commit (V.files volume.old)
        (V.may_leave volume.old (V.moment volume.old))
        → IsErr result → ¬ (IsErrOf result LogError.Device)
        → IsAt log.new roots commit (V.files volume.new)
        (V.may_leave volume.new (V.moment volume.new)) }
    ensures new_trees { IsTrue (V.tells volume.old) → (roots : Roots) (commit : ℕ)
        (new_roots : Roots) (new_commit : ℕ)
        → IsAt log.old roots commit (V.files volume.old)
        (V.may_leave volume.old (V.moment volume.old))
        → IsNextBlock log.old (V.files volume.old) block.now back new_roots new_commit
        → OnOk result (env_trees log.new.file (V.files volume.new) new_roots
        ≡ trees_with log.old (V.files volume.old) block.now new_roots) }
    ensures old_trees { IsTrue (V.tells volume.old) → (roots : Roots) (commit : ℕ)
        → IsAt log.old roots commit (V.files volume.old)
        (V.may_leave volume.old (V.moment volume.old))
        → env_trees log.old.file (V.files volume.new) roots
        ≡ env_trees log.old.file (V.files volume.old) roots }
    ensures count { IsTrue (V.tells volume.old)
        → log_file_count (V.files volume.new) ≡ log_file_count (V.files volume.old) }
    ensures body_stays { IsTrue (V.tells volume.old)
        → contains_key (V.files volume.new) (body_file log.old) ≡ true }

    // What a crash may leave.
    ensures kept { IsTrue (V.tells volume.old)
        → V.may_leave volume.old (V.moment volume.old) (V.files volume.old)
        → V.may_leave volume.new (V.moment volume.new) (V.files volume.new) }
    ensures crash { IsTrue (V.tells volume.old) → (roots : Roots) (commit : ℕ)
        → IsAt log.old roots commit (V.files volume.old)
        (V.may_leave volume.old (V.moment volume.old))
        → IsSteady log.old (V.files volume.old)
        (V.may_leave volume.old (V.moment volume.old))
        → Passes (V.moment volume.old) (V.moment volume.new)
        (V.may_leave volume.old) (V.may_leave volume.new)
        (Stores (Some (newest_stored log.old.file (V.files volume.old) roots commit))) }
    ensures steady { IsTrue (V.tells volume.old) → (roots : Roots) (commit : ℕ)
        → IsAt log.old roots commit (V.files volume.old)
        (V.may_leave volume.old (V.moment volume.old))
        → IsSteady log.old (V.files volume.old)
        (V.may_leave volume.old (V.moment volume.old))
        → ¬ (IsErrOf result LogError.Device)
        → IsSteady log.new (V.files volume.new)
        (V.may_leave volume.new (V.moment volume.new)) }
{
    log.append_block(volume, block, back)?;
    Ok(())
}

/// Rolls the log, and appends the block of the next commit to the next log file. `has_next` says
/// whether that file is there.
pub(crate) fn append_next<V: Volume>(
    volume: &mut V,
    log: &mut Log,
    block: &[u8],
    back: u32,
    has_next: &mut bool,
) -> Result<(), LogError>
    requires stands { IsTrue (V.tells volume.old) → Stands log.old (V.files volume.old)
        (V.may_leave volume.old (V.moment volume.old)) }
    requires due { is_due log.old ≡ true }
    requires room { 0 < log.old.target }
    requires next_known { IsTrue (V.tells volume.old)
        → has_next.old ≡ has_pair (V.files volume.old) (log.old.file + 1) }
    ensures log { OnOk result (log.new ≡ appended_log (rolled_log log.old) (length block.now) back) }
    ensures refused { OnErr result ((log.new ≡ log.old) ⊎ (log.new ≡ sealed_log log.old)) }
    ensures fits { OnOk result (log.new.end < 2 ^ 64) }
    ensures spent { (log.old.file ≡ last_file)
        ↔ (result ≡ Err (LogError.NumbersSpent last_file)) }
    ensures spent_only { (last : ℕ) → IsErrOf result (LogError.NumbersSpent last)
        → last ≡ last_file }
    ensures untouched { (last : ℕ) → IsErrOf result (LogError.NumbersSpent last)
        → (log.new ≡ log.old) × (volume.new ≡ volume.old) × (has_next.new ≡ has_next.old) }
    ensures made { OnOk result (has_next.new ≡ true) }
    ensures never_lost { has_next.old ≡ true → has_next.new ≡ true }
    ensures failed { IsErrOf result LogError.Device
        → Rose (V.faults volume.old) (V.faults volume.new) }
    ensures unfailed { ¬ (IsErrOf result LogError.Device)
        → V.faults volume.new ≡ V.faults volume.old }
    ensures stays { Stays (V.tells volume.old) (V.tells volume.new)
        (V.leases volume.old) (V.leases volume.new) (V.refs volume.old) (V.refs volume.new)
        (V.faults volume.old) (V.faults volume.new) }

    // Where the environment is told.
    ensures at { IsTrue (V.tells volume.old) → (roots : Roots) (commit : ℕ)
        (new_roots : Roots) (new_commit : ℕ)
        → IsAt log.old roots commit (V.files volume.old)
        (V.may_leave volume.old (V.moment volume.old))
        → IsNextBlock log.old (V.files volume.old) block.now back new_roots new_commit
        → OnOk result (IsAt log.new new_roots new_commit (V.files volume.new)
        (V.may_leave volume.new (V.moment volume.new))) }
    ensures at_kept { IsTrue (V.tells volume.old) → (roots : Roots) (commit : ℕ)
        → IsAt log.old roots commit (V.files volume.old)
        (V.may_leave volume.old (V.moment volume.old))
        → IsErr result → ¬ (IsErrOf result LogError.Device)
        → IsAt log.new roots commit (V.files volume.new)
        (V.may_leave volume.new (V.moment volume.new)) }
    ensures new_trees { IsTrue (V.tells volume.old) → (roots : Roots) (commit : ℕ)
        (new_roots : Roots) (new_commit : ℕ)
        → IsAt log.old roots commit (V.files volume.old)
        (V.may_leave volume.old (V.moment volume.old))
        → IsNextBlock log.old (V.files volume.old) block.now back new_roots new_commit
        → OnOk result (env_trees log.new.file (V.files volume.new) new_roots
        ≡ trees_with log.old (V.files volume.old) block.now new_roots) }
    ensures old_trees { IsTrue (V.tells volume.old) → (roots : Roots)
        → env_trees log.old.file (V.files volume.new) roots
        ≡ env_trees log.old.file (V.files volume.old) roots }
    ensures next_known { IsTrue (V.tells volume.old)
        → has_next.new ≡ has_pair (V.files volume.new) (log.old.file + 1) }
    ensures count { IsTrue (V.tells volume.old)
        → log_file_count (V.files volume.new) + (if has_next.old then 1 else 0)
        ≡ log_file_count (V.files volume.old) + (if has_next.new then 1 else 0) }
    ensures body_stays { IsTrue (V.tells volume.old)
        → contains_key (V.files volume.new) (body_file log.old) ≡ true }

    // What a crash may leave.
    ensures kept { IsTrue (V.tells volume.old)
        → V.may_leave volume.old (V.moment volume.old) (V.files volume.old)
        → V.may_leave volume.new (V.moment volume.new) (V.files volume.new) }
    ensures crash { IsTrue (V.tells volume.old) → (roots : Roots) (commit : ℕ)
        → IsAt log.old roots commit (V.files volume.old)
        (V.may_leave volume.old (V.moment volume.old))
        → ArePlaced log.old roots → IsSteady log.old (V.files volume.old)
        (V.may_leave volume.old (V.moment volume.old))
        → Passes (V.moment volume.old) (V.moment volume.new)
        (V.may_leave volume.old) (V.may_leave volume.new)
        (Stores (Some (newest_stored log.old.file (V.files volume.old) roots commit))) }
    ensures steady { IsTrue (V.tells volume.old) → (roots : Roots) (commit : ℕ)
        → IsAt log.old roots commit (V.files volume.old)
        (V.may_leave volume.old (V.moment volume.old))
        → IsSteady log.old (V.files volume.old)
        (V.may_leave volume.old (V.moment volume.old))
        → ¬ (IsErrOf result LogError.Device)
        → IsSteady log.new (V.files volume.new)
        (V.may_leave volume.new (V.moment volume.new)) }
{
    // That the number has 32 bits is known once it is read, and the count asks for it.
    let _file = log.file();
    let mut next = log.prepare_next(volume, has_next)?;
    next.append_block(volume, block, back)?;
    *log = next;
    Ok(())
}

/// Makes the pair of the first log file, on a volume where none is used.
pub(crate) fn make_first<V: Volume>(volume: &mut V, target: u64) -> Result<Log, LogError>
    requires unused { IsTrue (V.tells volume.old) → (file : ℕ) → file ≤ last_file
        → ¬ (IsUsed file (V.files volume.old)) }
    ensures log { IfOk result (λ log. log ≡ empty_log 0 target) }
    ensures numbers_left { (last : ℕ) → ¬ (IsErrOf result (LogError.NumbersSpent last)) }
    ensures failed { IsErrOf result LogError.Device
        → Rose (V.faults volume.old) (V.faults volume.new) }
    ensures unfailed { ¬ (IsErrOf result LogError.Device)
        → V.faults volume.new ≡ V.faults volume.old }
    ensures stays { Stays (V.tells volume.old) (V.tells volume.new)
        (V.leases volume.old) (V.leases volume.new) (V.refs volume.old) (V.refs volume.new)
        (V.faults volume.old) (V.faults volume.new) }

    // Where the environment is told.
    ensures at { IsTrue (V.tells volume.old) → IfOk result (λ log. IsAt log no_roots 0
        (V.files volume.new) (V.may_leave volume.new (V.moment volume.new))) }
    ensures others { IsTrue (V.tells volume.old) → (other : ℕ) → 2 ≤ other
        → get (V.files volume.new) other ≡ get (V.files volume.old) other }
    ensures reads { IsTrue (V.tells volume.old)
        → MakesPair 0 (V.files volume.old) (V.files volume.new) }

    // What a crash may leave.
    ensures kept { IsTrue (V.tells volume.old)
        → V.may_leave volume.old (V.moment volume.old) (V.files volume.old)
        → V.may_leave volume.new (V.moment volume.new) (V.files volume.new) }
    ensures crash { IsTrue (V.tells volume.old)
        → Settled (V.files volume.old) (V.may_leave volume.old (V.moment volume.old))
        → Passes (V.moment volume.old) (V.moment volume.new)
        (V.may_leave volume.old) (V.may_leave volume.new)
        (Stores (stored_in (V.files volume.old))) }
    ensures settled { IsTrue (V.tells volume.old)
        → Settled (V.files volume.old) (V.may_leave volume.old (V.moment volume.old))
        → OnOk result (Settled (V.files volume.new)
        (V.may_leave volume.new (V.moment volume.new))) }
    ensures steady { IsTrue (V.tells volume.old)
        → Settled (V.files volume.old) (V.may_leave volume.old (V.moment volume.old))
        → IfOk result (λ log. IsSteady log
        (V.files volume.new) (V.may_leave volume.new (V.moment volume.new))) }
{
    Log::fresh(volume, target)
}
