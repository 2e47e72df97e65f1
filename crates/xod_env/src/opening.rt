//! Opening an environment: the newest commit is found, and a log goes on from it.
//!
//! Where no log file is used, the pair of the first one is made. What an opening leaves of a volume stands in
//! `specs/Opening.antt`.
ghost use Rattle.std.specs.Prelude.{◌≡◌, ◌<◌, ◌≤◌, ℕ, true, false, Err, IfErr, IfOk, IsErrOf, IsTrue, OnOk, Some, is_some};
ghost use Rattle.std.specs.FinMap.{get};
ghost use Rattle.xod_base.specs.Causes.{Rose};
ghost use Rattle.xod_base.specs.declared.causes.Place.{Place};
ghost use Rattle.xod_audit.specs.Audits.{kinds_of};
ghost use Rattle.xod_log.specs.Ends.{IsUsed};
ghost use Rattle.xod_log.specs.Standing.{empty_log, last_file};
ghost use Rattle.xod_recover.specs.declared.error.OpenError.{OpenError};
ghost use Rattle.xod_recover.specs.Check.{check};
ghost use Rattle.xod_recover.specs.Images.{Settled, UnusedFrom};
ghost use Rattle.xod_recover.specs.Reads.{OnlyReads};
ghost use Rattle.xod_recover.specs.Stores.{stored_in};
ghost use Rattle.xod_volume.specs.declared.volume.VolumeError.{VolumeError};
ghost use Rattle.xod_env.specs.Envs.{ArePlaced, IsAt, IsSteady, env_trees, log_file_count, most_target, newest_stored, no_roots};
ghost use Rattle.xod_env.specs.Opening.{LeavesStored, kinds_in};

use crate::count::count_log_files;
use crate::env::Env;
use crate::parts::make_first;
use crate::steady::settled_volumes_are_steady;
use std::alloc::Global;
use xod_base::NameList;
use xod_log::{Log, LogError, stands_after_opening};
use xod_recover::{Found, OpenError, recover};
use xod_root::RootList;
use xod_volume::{Volume, VolumeError};

/// The log of a first file, which is made on a volume where none is used.
fn first_log<V: Volume>(volume: &mut V, target: u64) -> Result<Log, OpenError>
    requires unused { IsTrue (V.tells volume.old) → (file : ℕ) → file ≤ last_file
        → ¬ (IsUsed file (V.files volume.old)) }
    requires nothing { IsTrue (V.tells volume.old) → UnusedFrom 0 (V.files volume.old) }
    ensures log { IfOk result (λ log. log ≡ empty_log 0 target) }
    ensures at { IsTrue (V.tells volume.old) → IfOk result (λ log. IsAt log no_roots 0
        (V.files volume.new) (V.may_leave volume.new (V.moment volume.new))) }
    ensures undamaged { (place : Place) → ¬ (result ≡ Err (OpenError.Damaged place)) }
    ensures device { result ≡ Err OpenError.Device
        → Rose (V.faults volume.old) (V.faults volume.new) }
    ensures unfailed { ¬ (result ≡ Err OpenError.Device)
        → V.faults volume.new ≡ V.faults volume.old }
    ensures there { IsTrue (V.tells volume.old) → (file : ℕ) → 2 ≤ file
        → is_some (get (V.files volume.new) file) ≡ is_some (get (V.files volume.old) file) }

    // What a crash may leave.
    ensures leaves { LeavesStored V.tells V.files V.moment V.may_leave V.leases V.refs V.faults
        volume.old volume.new }
    ensures settled { IsTrue (V.tells volume.old)
        → Settled (V.files volume.old) (V.may_leave volume.old (V.moment volume.old))
        → OnOk result (Settled (V.files volume.new)
        (V.may_leave volume.new (V.moment volume.new))) }
{
    match make_first(volume, target) {
        Ok(log) => Ok(log),
        Err(LogError::Device) => Err(OpenError::Device),
        Err(LogError::NumbersSpent { .. }) => Err(OpenError::Memory), // never, in a first file
        Err(LogError::Memory) => Err(OpenError::Memory),
    }
}

/// The newest commit, and the log that goes on from it.
#[derive(Drop)]
struct Start {
    log: Log,
    roots: RootList,
    commit: u64,
    kinds: NameList,
}

/// Finds the newest commit, and makes the first log file where none is used. The log has nothing to seal.
fn find_start<V: Volume>(alloc: Global, volume: &mut V, target: u64) -> Result<Start, OpenError>
    requires some { 0 < target }
    requires low { target ≤ most_target }
    ensures at { IsTrue (V.tells volume.old) → IfOk result (λ start.
        IsAt start.log start.roots start.commit
        (V.files volume.new) (V.may_leave volume.new (V.moment volume.new))) }
    ensures placed { IfOk result (λ start. ArePlaced start.log start.roots) }
    ensures kinds { IsTrue (V.tells volume.old) → IfOk result (λ start.
        kinds_in (V.files volume.old) ≡ Some start.kinds) }
    ensures target { IfOk result (λ start. start.log.target ≡ target) }
    ensures sealed { IfOk result (λ start. start.log.is_sealed ≡ true) }
    ensures damaged { IsTrue (V.tells volume.old) → (place : Place)
        → result ≡ Err (OpenError.Damaged place) → check (V.files volume.old) ≡ Err place }
    ensures damaged_reads { (place : Place) → result ≡ Err (OpenError.Damaged place)
        → OnlyReads V.tells V.files V.moment V.may_leave V.leases V.refs V.faults
        volume.old volume.new }
    ensures device { result ≡ Err OpenError.Device
        → Rose (V.faults volume.old) (V.faults volume.new) }
    ensures unfailed { OnOk result (V.faults volume.new ≡ V.faults volume.old) }
    ensures memory { result ≡ Err OpenError.Memory
        → V.faults volume.new ≡ V.faults volume.old }
    ensures there { IsTrue (V.tells volume.old) → (file : ℕ) → 2 ≤ file
        → is_some (get (V.files volume.new) file) ≡ is_some (get (V.files volume.old) file) }

    // What a crash may leave.
    ensures leaves { LeavesStored V.tells V.files V.moment V.may_leave V.leases V.refs V.faults
        volume.old volume.new }
    ensures settled { IsTrue (V.tells volume.old)
        → Settled (V.files volume.old) (V.may_leave volume.old (V.moment volume.old))
        → OnOk result (Settled (V.files volume.new)
        (V.may_leave volume.new (V.moment volume.new))) }
{
    let found = recover(alloc, volume)?;
    stands_after_opening::<V>();
    if found.marks == 0 {
        let log = first_log(volume, target)?;
        return Ok(Start {
            log,
            roots: found.roots,
            commit: found.commit,
            kinds: found.kinds,
        });
    }
    let log = Log::resume(found.file, found.end, found.marks, found.back, target);
    Ok(Start {
        log,
        roots: found.roots,
        commit: found.commit,
        kinds: found.kinds,
    })
}

/// How many log files a volume has.
fn count_files<V: Volume>(volume: &mut V) -> Result<u64, VolumeError>
    ensures count { IsTrue (V.tells volume.old) → IfOk result (λ count.
        count ≡ log_file_count (V.files volume.old)) }
    ensures failed { IsErrOf result VolumeError.Failed
        → Rose (V.faults volume.old) (V.faults volume.new) }
    ensures unfailed { ¬ (IsErrOf result VolumeError.Failed)
        → V.faults volume.new ≡ V.faults volume.old }
    ensures reads { OnlyReads V.tells V.files V.moment V.may_leave V.leases V.refs V.faults
        volume.old volume.new }
{
    let numbers = volume.files()?;
    Ok(count_log_files(&numbers))
}

/// What an environment is opened with.
#[derive(Drop)]
struct Opened {
    start: Start,
    file_count: u64,
}

/// Finds the newest commit, and counts the log files.
fn open_on<V: Volume>(alloc: Global, volume: &mut V, target: u64) -> Result<Opened, OpenError>
    requires some { 0 < target }
    requires low { target ≤ most_target }
    ensures at { IsTrue (V.tells volume.old) → IfOk result (λ opened.
        IsAt opened.start.log opened.start.roots opened.start.commit
        (V.files volume.new) (V.may_leave volume.new (V.moment volume.new))) }
    ensures count { IsTrue (V.tells volume.old) → IfOk result (λ opened.
        opened.file_count ≡ log_file_count (V.files volume.new)) }
    ensures placed { IfOk result (λ opened. ArePlaced opened.start.log opened.start.roots) }
    ensures kinds { IsTrue (V.tells volume.old) → IfOk result (λ opened.
        kinds_in (V.files volume.old) ≡ Some opened.start.kinds) }
    ensures target { IfOk result (λ opened. opened.start.log.target ≡ target) }
    ensures sealed { IfOk result (λ opened. opened.start.log.is_sealed ≡ true) }
    ensures damaged { IsTrue (V.tells volume.old) → (place : Place)
        → result ≡ Err (OpenError.Damaged place) → check (V.files volume.old) ≡ Err place }
    ensures damaged_reads { (place : Place) → result ≡ Err (OpenError.Damaged place)
        → OnlyReads V.tells V.files V.moment V.may_leave V.leases V.refs V.faults
        volume.old volume.new }
    ensures device { result ≡ Err OpenError.Device
        → Rose (V.faults volume.old) (V.faults volume.new) }
    ensures unfailed { OnOk result (V.faults volume.new ≡ V.faults volume.old) }
    ensures memory { result ≡ Err OpenError.Memory
        → V.faults volume.new ≡ V.faults volume.old }
    ensures there { IsTrue (V.tells volume.old) → (file : ℕ) → 2 ≤ file
        → is_some (get (V.files volume.new) file) ≡ is_some (get (V.files volume.old) file) }

    // What a crash may leave.
    ensures leaves { LeavesStored V.tells V.files V.moment V.may_leave V.leases V.refs V.faults
        volume.old volume.new }
    ensures settled { IsTrue (V.tells volume.old)
        → Settled (V.files volume.old) (V.may_leave volume.old (V.moment volume.old))
        → OnOk result (Settled (V.files volume.new)
        (V.may_leave volume.new (V.moment volume.new))) }
{
    let start = find_start(alloc, volume, target)?;
    let file_count = count_files(volume)?;
    Ok(Opened { start, file_count })
}

impl<V: Volume> Env<V> {
    /// Opens an environment on a volume: on the newest commit that is durable in it, or on an empty store where no log file
    /// is used. Log files are rolled at the length `target`. A refusal hands the volume back.
    pub fn open(alloc: Global, mut volume: V, target: u64) -> Result<Env<V>, (V, OpenError)>
        requires some { 4096 ≤ target }
        requires low { target ≤ most_target }
        ensures found { IsTrue (V.tells volume) → IfOk result (λ env.
            stored_in (V.files volume) ≡ Some (newest_stored env.log.file (V.files env.volume)
            env.roots env.commit)) }
        ensures stores { IsTrue (V.tells volume) → IfOk result (λ env.
            stored_in (V.files env.volume) ≡ Some (newest_stored env.log.file
            (V.files env.volume) env.roots env.commit)) }
        ensures kinds { IsTrue (V.tells volume) → IfOk result (λ env.
            kinds_of (env_trees env.log.file (V.files env.volume) env.roots)
            ≡ Some env.kinds) }
        ensures target { IfOk result (λ env. env.log.target ≡ target) }
        ensures sealed { IfOk result (λ env. env.log.is_sealed ≡ true) }
        ensures unbroken { IfOk result (λ env. env.is_broken ≡ false) }
        ensures damaged { IsTrue (V.tells volume) → IfErr result (λ refused. (place : Place)
            → refused.1 ≡ OpenError.Damaged place → check (V.files volume) ≡ Err place) }
        ensures damaged_reads { IfErr result (λ refused. (place : Place)
            → refused.1 ≡ OpenError.Damaged place
            → OnlyReads V.tells V.files V.moment V.may_leave V.leases V.refs V.faults
            volume refused.0) }
        ensures device { IfErr result (λ refused. refused.1 ≡ OpenError.Device
            → Rose (V.faults volume) (V.faults refused.0)) }
        ensures unfailed { IfOk result (λ env. V.faults env.volume ≡ V.faults volume) }
        ensures memory { IfErr result (λ refused. refused.1 ≡ OpenError.Memory
            → V.faults refused.0 ≡ V.faults volume) }
        ensures there { IsTrue (V.tells volume) → IfOk result (λ env. (file : ℕ) → 2 ≤ file
            → is_some (get (V.files env.volume) file) ≡ is_some (get (V.files volume) file)) }
        ensures refusal_there { IsTrue (V.tells volume) → IfErr result (λ refused. (file : ℕ)
            → 2 ≤ file
            → is_some (get (V.files refused.0) file) ≡ is_some (get (V.files volume) file)) }

        // What a crash may leave.
        ensures leaves { IfOk result (λ env. LeavesStored V.tells V.files V.moment V.may_leave
            V.leases V.refs V.faults volume env.volume) }
        ensures refusal_leaves { IfErr result (λ refused. LeavesStored V.tells V.files V.moment
            V.may_leave V.leases V.refs V.faults volume refused.0) }
        ensures settled { IsTrue (V.tells volume)
            → Settled (V.files volume) (V.may_leave volume (V.moment volume))
            → IfOk result (λ env. Settled (V.files env.volume)
            (V.may_leave env.volume (V.moment env.volume))) }
        ensures steady { IsTrue (V.tells volume)
            → Settled (V.files volume) (V.may_leave volume (V.moment volume))
            → IfOk result (λ env. IsSteady env.log (V.files env.volume)
            (V.may_leave env.volume (V.moment env.volume))) }
    {
        let opened = match open_on(alloc, &mut volume, target) {
            Ok(opened) => opened,
            Err(cause) => return Err((volume, cause)),
        };
        settled_volumes_are_steady::<V>();
        let Opened { start, file_count } = opened;
        let Start {
            log,
            roots,
            commit,
            kinds,
        } = start;
        Ok(Env::over(volume, log, roots, commit, file_count, kinds))
    }
}
