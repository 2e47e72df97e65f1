//! The steps of a flush: the block of the next commit is built, and then written.
//!
//! Building only reads: it lends the bodies up to the current one and takes them back. What a write leaves stands in
//! `specs/Flushes.antt`.
ghost use Rattle.std.specs.Prelude.{◌≡◌, ◌∷◌, ◌<◌, ◌⊎◌, ◌+◌, ◌^◌, ℕ, false, true, is_some, length, Err, IfOk, IfSome, IsErrOf, IsTrue, OnErr, OnOk};
ghost use Rattle.xod_base.specs.Causes.{Rose};
ghost use Rattle.xod_base.specs.declared.causes.Place.{Place};
ghost use Rattle.xod_base.specs.declared.causes.ReadError.TheVariants.{Damaged};
ghost use Rattle.xod_base.specs.Views.{CountsFaults};
ghost use Rattle.xod_commit.specs.Blocks.{Fit};
ghost use Rattle.xod_log.specs.declared.error.LogError.{LogError};
ghost use Rattle.xod_log.specs.Standing.{Stands, appended_log, has_pair, is_due, is_last, last_file, next_place_of, receiving_log, rolled_log, sealed_log};
ghost use Rattle.xod_overlay.specs.Marks.{touched};
ghost use Rattle.xod_recover.specs.Reads.{OnlyReads};
ghost use Rattle.xod_trie_mut.specs.Changes.{KeysFit};
ghost use Rattle.xod_volume.specs.declared.volume.VolumeError.{VolumeError};
ghost use Rattle.xod_volume.specs.Leases.{Stays};
ghost use Rattle.xod_env.specs.Building.{IsBlockOf};
ghost use Rattle.xod_env.specs.EnvCalls.{KeepsFiles};
ghost use Rattle.xod_env.specs.Envs.{ArePlaced, bodies_up_to, env_records, env_trees};
ghost use Rattle.xod_env.specs.Flushes.{IsFileSpent, WritesBlock};

use crate::count::{count_next, lists_next};
use crate::kept::build_kept;
use crate::lend::lend_bodies;
use crate::parts::{append_newest, append_next};
use std::alloc::Global;
use std::marker::Brand;
use xod_base::ReadError;
use xod_commit::Built;
use xod_log::{Log, LogError};
use xod_overlay::Overlay;
use xod_root::RootList;
use xod_volume::{Volume, VolumeError};

/// No block begins at this place of a log file or behind it.
pub(crate) const NO_PLACE: u64 = 1 << 63;

/// Whether a block may come: a roll is not due where there is no log file to roll to.
pub(crate) fn has_room(log: &Log) -> bool
    ensures room { IsTrue result → is_due log.now ≡ true → is_last log.now ≡ false }
    ensures none { result ≡ false → IsFileSpent log.now last_file }
{
    !(log.is_due() && log.file() == u32::MAX)
}

/// The bodies up to the current one, to read them.
fn lend_to_read<V: Volume>(
    alloc: Global,
    volume: &mut V,
    current: u32,
) -> Result<V::Held, ReadError>
    ensures holds { IsTrue (V.tells volume.old) → IfOk result (λ lease.
        V.Held.lent lease ≡ bodies_up_to current (V.files volume.old)) }
    ensures tells_alike { IfOk result (λ lease. V.Held.tells lease ≡ V.tells volume.old) }
    ensures faultless { IfOk result (λ lease. V.Held.faults lease ≡ 0) }
    ensures lent { IfOk result (λ lease.
        V.leases volume.new ≡ V.Held.list lease ∷ V.leases volume.old) }
    ensures refused { OnErr result (V.leases volume.new ≡ V.leases volume.old) }
    ensures undamaged { (place : Place) → ¬ (result ≡ Err (Damaged place)) }
    ensures counts { CountsFaults (V.faults volume.old) (V.faults volume.new) result }
    ensures keeps { KeepsFiles V.tells V.files V.moment V.may_leave V.refs V.faults
        volume.old volume.new }
{
    match lend_bodies(alloc, volume, current) {
        Ok(lease) => Ok(lease),
        Err(VolumeError::Failed) => Err(ReadError::Device),
        Err(VolumeError::Memory) => Err(ReadError::Memory),
    }
}

/// The block of the next commit, which is to stand at the log's next place. The volume is only read.
pub(crate) fn build_next<V: Volume>(
    alloc: Global,
    volume: &mut V,
    log: Log,
    roots: &RootList,
    commit: u64,
    changes: &Overlay,
) -> Result<Built, ReadError>
    requires placed { ArePlaced log roots.now }
    requires small { (next_place_of log).at < 2 ^ 63 }
    requires fit { Fit (touched changes.now) }
    requires keys_fit { IsTrue (V.tells volume.old) → (tree : ℕ)
        → IfSome (env_trees log.file (V.files volume.old) roots.now tree) KeysFit }
    ensures built { IfOk result (IsBlockOf (V.tells volume.old)
        (env_records log.file (V.files volume.old))
        roots.now commit (next_place_of log) (touched changes.now)) }
    ensures never_damaged { IsTrue (V.tells volume.old)
        → ((tree : ℕ) → is_some (env_trees log.file (V.files volume.old) roots.now tree) ≡ true)
        → (place : Place) → ¬ (result ≡ Err (Damaged place)) }
    ensures counts { CountsFaults (V.faults volume.old) (V.faults volume.new) result }
    ensures leases { V.leases volume.new ≡ V.leases volume.old }
    ensures keeps { KeepsFiles V.tells V.files V.moment V.may_leave V.refs V.faults
        volume.old volume.new }
{
    let mut lease = lend_to_read(alloc, volume, log.file())?;
    let place = log.next_place();
    let built = build_kept::<V::Held, Brand>(alloc, &mut lease, roots, commit, place, changes);
    volume.take_back(lease);
    built
}

/// Whether the log file behind the current one is there.
fn has_next<V: Volume>(volume: &mut V, file: u32) -> Result<bool, VolumeError>
    ensures known { IsTrue (V.tells volume.old) → IfOk result (λ known.
        known ≡ has_pair (V.files volume.old) (file + 1)) }
    ensures failed { IsErrOf result VolumeError.Failed
        → Rose (V.faults volume.old) (V.faults volume.new) }
    ensures unfailed { ¬ (IsErrOf result VolumeError.Failed)
        → V.faults volume.new ≡ V.faults volume.old }
    ensures reads { OnlyReads V.tells V.files V.moment V.may_leave V.leases V.refs V.faults
        volume.old volume.new }
{
    let numbers = volume.files()?;
    Ok(lists_next(&numbers, file))
}

/// Rolls the log, and writes the block of a commit into the next log file. `count` is the number of log files.
fn write_behind_roll<V: Volume>(
    volume: &mut V,
    log: &mut Log,
    count: &mut u64,
    block: &[u8],
    back: u32,
) -> Result<(), LogError>
    requires stands { IsTrue (V.tells volume.old) → Stands log.old (V.files volume.old)
        (V.may_leave volume.old (V.moment volume.old)) }
    requires due { is_due log.old ≡ true }
    requires room { is_last log.old ≡ false }
    requires some { 0 < log.old.target }
    ensures log { OnOk result (log.new
        ≡ appended_log (rolled_log log.old) (length block.now) back) }
    ensures refused { OnErr result ((log.new ≡ log.old) ⊎ (log.new ≡ sealed_log log.old)) }
    ensures fits { OnOk result (log.new.end < 2 ^ 64) }
    ensures numbers_left { (last : ℕ) → ¬ (IsErrOf result (LogError.NumbersSpent last)) }
    ensures failed { IsErrOf result LogError.Device
        → Rose (V.faults volume.old) (V.faults volume.new) }
    ensures unfailed { ¬ (IsErrOf result LogError.Device)
        → V.faults volume.new ≡ V.faults volume.old }
    ensures stays { Stays (V.tells volume.old) (V.tells volume.new)
        (V.leases volume.old) (V.leases volume.new) (V.refs volume.old) (V.refs volume.new)
        (V.faults volume.old) (V.faults volume.new) }
    ensures writes { IsTrue (V.tells volume.old) → WritesBlock V.files V.moment V.may_leave
        log.old log.new count.old count.new block.now back
        volume.old volume.new result }
{
    let had_next = match has_next(volume, log.file()) {
        Ok(known) => known,
        Err(VolumeError::Failed) => return Err(LogError::Device),
        Err(VolumeError::Memory) => return Err(LogError::Memory),
    };
    let mut is_there = had_next;
    match append_next(volume, log, block, back, &mut is_there) {
        Ok(()) => {
            *count = count_next(*count, had_next, is_there);
            Ok(())
        }
        Err(error) => {
            *count = count_next(*count, had_next, is_there);
            Err(error)
        }
    }
}

/// Writes the block of a commit: behind the newest one, or into the next log file where a roll is due. `count` is the
/// number of log files.
pub(crate) fn write_block<V: Volume>(
    volume: &mut V,
    log: &mut Log,
    count: &mut u64,
    block: &[u8],
    back: u32,
) -> Result<(), LogError>
    requires stands { IsTrue (V.tells volume.old) → Stands log.old (V.files volume.old)
        (V.may_leave volume.old (V.moment volume.old)) }
    requires room { is_due log.old ≡ true → is_last log.old ≡ false }
    requires some { 0 < log.old.target }
    ensures log { OnOk result (log.new
        ≡ appended_log (receiving_log log.old) (length block.now) back) }
    ensures refused { OnErr result ((log.new ≡ log.old) ⊎ (log.new ≡ sealed_log log.old)) }
    ensures fits { OnOk result (log.new.end < 2 ^ 64) }
    ensures numbers_left { (last : ℕ) → ¬ (IsErrOf result (LogError.NumbersSpent last)) }
    ensures failed { IsErrOf result LogError.Device
        → Rose (V.faults volume.old) (V.faults volume.new) }
    ensures unfailed { ¬ (IsErrOf result LogError.Device)
        → V.faults volume.new ≡ V.faults volume.old }
    ensures stays { Stays (V.tells volume.old) (V.tells volume.new)
        (V.leases volume.old) (V.leases volume.new) (V.refs volume.old) (V.refs volume.new)
        (V.faults volume.old) (V.faults volume.new) }
    ensures writes { IsTrue (V.tells volume.old) → WritesBlock V.files V.moment V.may_leave
        log.old log.new count.old count.new block.now back
        volume.old volume.new result }
{
    if log.is_due() {
        return write_behind_roll(volume, log, count, block, back);
    }
    append_newest(volume, log, block, back)
}
