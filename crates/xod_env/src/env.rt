//! The environment: the newest commit of a store, over the files of a volume.
//!
//! It lends snapshots of its newest commit, commits touched keys over it, and makes it outlive a crash. How it is opened
//! stands in `opening`, and the steps of a flush in `flush`. What it is open on stands in `specs/Envs.antt`.
ghost use Rattle.std.specs.Prelude.{◌≡◌, ◌≤◌, Ok, Err, is_some, ◌∷◌, ◌↔◌, ◌<◌, ◌+◌, ◌^◌, ℕ, false, true, if◌then◌else◌, is_ok, IfOk, IsErr, IsErrOf, IsOk, IsTrue, OnErr, OnOk, Some};
ghost use Rattle.std.specs.FinMap.{contains_key, keys};
ghost use Rattle.std.specs.List.{filter};
ghost use Rattle.std.proofs.Props.{props};
ghost use Rattle.xod_base.specs.Causes.{Rose};
ghost use Rattle.xod_base.specs.declared.causes.Place.{Place};
ghost use Rattle.xod_commit.specs.Blocks.{Fit};
ghost use Rattle.xod_log.specs.declared.error.LogError.{LogError};
ghost use Rattle.xod_log.specs.Ends.{body_of};
ghost use Rattle.xod_log.specs.Standing.{is_due, is_last, last_file, next_place_of, sealed_log};
ghost use Rattle.xod_overlay.specs.Marks.{overlaid_trees, touched};
ghost use Rattle.xod_recover.specs.Images.{AllStore, Settled, Stores};
ghost use Rattle.xod_recover.specs.Stores.{stored_in};
ghost use Rattle.xod_root.specs.Roots.{Roots};
ghost use Rattle.xod_tables.specs.Reading.{rows_of};
ghost use Rattle.xod_volume.specs.Crash.{Passes};
ghost use Rattle.xod_volume.specs.Leases.{Added, Stays, without};
ghost use Rattle.xod_env.specs.declared.error.EnvError.{EnvError};
ghost use Rattle.xod_env.specs.declared.error.FlushError.{FlushError};
ghost use Rattle.xod_env.specs.declared.flushed.Flushed.{Flushed};
ghost use Rattle.xod_env.specs.Blocks.{IsNextBlock, trees_with};
ghost use Rattle.xod_env.specs.Bodies.{is_body_up_to};
ghost use Rattle.xod_env.specs.Building.{IsPlacedAt};
ghost use Rattle.xod_env.specs.EnvCalls.{KeepsFiles, KeepsNewest, Refuses};
ghost use Rattle.xod_env.specs.Envs.{ArePlaced, IsAt, IsSteady, env_trees, log_file_count, newest_stored};
ghost use Rattle.xod_env.specs.Flushes.{GoesOn, IsConflict, IsFileSpent, IsSpent, IsUntouched, KeepsCommit, is_commit, last_commit};
ghost use Rattle.xod_snapshot.specs.Snapshots.{snapshot_trees};

use crate::error::{EnvError, FlushError};
use crate::flush::{NO_PLACE, build_next, has_room, write_block};
use crate::flushed::Flushed;
use crate::lend::lend_bodies;
use crate::parts::seal_newest;
use std::alloc::Global;
use xod_base::NameList;
use xod_commit::Built;
use xod_log::{Log, LogError};
use xod_overlay::Overlay;
use xod_pages::Pages;
use xod_root::RootList;
use xod_snapshot::Snapshot;
use xod_volume::Volume;

/// The newest commit of a store, over the files of a volume.
///
/// It is broken once a write failed in it, and promises nothing of its files from there but how many log files there are,
/// and that the last log file's body is there where its log is on that file.
/// It is not dropped: `close` hands its volume back.
pub struct Env<V: Volume> {
    volume: V,
    log: Log,
    roots: RootList,
    commit: u64,
    file_count: u64,
    kinds: NameList,
    is_broken: bool,
    ghost opened: { is_broken ≡ false → IsTrue (V.tells volume) → IsAt log roots
        commit (V.files volume) (V.may_leave volume (V.moment volume)) } by { Prim.hlevel props },
    ghost counted: { IsTrue (V.tells volume) → file_count ≡ log_file_count (V.files volume) },
    ghost placed: { ArePlaced log roots },
    ghost last: { IsTrue (V.tells volume) → is_last log ≡ true
        → contains_key (V.files volume) (body_of last_file) ≡ true },
}

impl<V: Volume> Env<V> {
    /// An environment on a volume where a log stands, with the commit and the roots of its newest block and the number of
    /// log files.
    pub(crate) fn over(
        volume: V,
        log: Log,
        roots: RootList,
        commit: u64,
        file_count: u64,
        kinds: NameList,
    ) -> Self
        requires opened { IsTrue (V.tells volume) → IsAt log roots commit
            (V.files volume) (V.may_leave volume (V.moment volume)) }
        requires counted { IsTrue (V.tells volume) → file_count ≡ log_file_count (V.files volume) }
        requires placed { ArePlaced log roots }
        requires last { IsTrue (V.tells volume) → is_last log ≡ true
            → contains_key (V.files volume) (body_of last_file) ≡ true }
        ensures volume { result.volume ≡ volume }
        ensures log { result.log ≡ log }
        ensures roots { result.roots ≡ roots }
        ensures commit { result.commit ≡ commit }
        ensures count { result.file_count ≡ file_count }
        ensures kinds { result.kinds ≡ kinds }
        ensures unbroken { result.is_broken ≡ false }
    {
        Env {
            volume,
            log,
            roots,
            commit,
            file_count,
            kinds,
            is_broken: false,
        }
    }

    /// The number of the newest commit.
    pub fn version(&self) -> u64
        ensures { result ≡ self.now.commit }
    {
        self.commit
    }

    /// The number of the current log file.
    pub fn current(&self) -> u32
        ensures { result ≡ self.now.log.file }
    {
        self.log.file()
    }

    /// How many log files there are, also where the environment is broken.
    pub fn files(&self) -> u64
        ensures exact { result ≡ self.now.file_count }
        ensures counted { IsTrue (V.tells self.now.volume)
            → result ≡ log_file_count (V.files self.now.volume) }
    {
        self.file_count
    }

    /// The names of the types, by their numbers, as they were when it was opened.
    pub fn kinds(&self) -> &NameList
        ensures { result.now ≡ self.now.kinds }
    {
        &self.kinds
    }

    /// A snapshot of the newest commit. Its lease is of the bodies up to that of the current log file.
    pub fn pin(&mut self, alloc: Global) -> Result<Snapshot<V::Held>, EnvError>
        ensures version { IfOk result (λ snapshot. snapshot.version ≡ self.old.commit) }
        ensures roots { IfOk result (λ snapshot. snapshot.roots ≡ self.old.roots) }
        ensures trees { IsTrue (V.tells self.old.volume) → IfOk result (λ snapshot.
            snapshot_trees (V.Held.lent snapshot.lease) snapshot.roots
            ≡ env_trees self.old.log.file (V.files self.old.volume) self.old.roots) }
        ensures bodies { IsTrue (V.tells self.old.volume) → IfOk result (λ snapshot.
            V.Held.list snapshot.lease
            ≡ filter (is_body_up_to self.old.log.file) (keys (V.files self.old.volume))) }
        ensures tells_alike { IfOk result (λ snapshot.
            V.Held.tells snapshot.lease ≡ V.tells self.old.volume) }
        ensures faultless { IfOk result (λ snapshot. V.Held.faults snapshot.lease ≡ 0) }
        ensures lent { IfOk result (λ snapshot. V.leases self.new.volume
            ≡ V.Held.list snapshot.lease ∷ V.leases self.old.volume) }
        ensures refusals { Refuses self.old.is_broken (V.faults self.old.volume)
            (V.faults self.new.volume) result }
        ensures not_lent { OnErr result (
            V.leases self.new.volume ≡ V.leases self.old.volume) }
        ensures broken_before_all { self.old.is_broken ≡ true → self.new ≡ self.old }
        ensures broken_as_before { self.new.is_broken ≡ self.old.is_broken }
        ensures kinds { self.new.kinds ≡ self.old.kinds }
        ensures log { self.new.log ≡ self.old.log }
        ensures newest { KeepsNewest self.old.roots self.new.roots
            self.old.commit self.new.commit self.old.file_count self.new.file_count }
        ensures files { KeepsFiles V.tells V.files V.moment V.may_leave V.refs V.faults
            self.old.volume self.new.volume }
        ensures steady { IsTrue (V.tells self.old.volume)
            → IsSteady self.old.log (V.files self.old.volume)
            (V.may_leave self.old.volume (V.moment self.old.volume))
            → IsSteady self.new.log (V.files self.new.volume)
            (V.may_leave self.new.volume (V.moment self.new.volume)) }
    {
        if self.is_broken {
            return Err(EnvError::Broken);
        }
        let pages = Pages::new(alloc)?;
        let lease = lend_bodies(alloc, &mut self.volume, self.log.file())?;
        Ok(Snapshot {
            lease,
            roots: self.roots.copied(),
            version: self.commit,
            pages,
        })
    }

    /// Takes a snapshot back, also where the environment is broken.
    pub fn unpin(&mut self, snapshot: Snapshot<V::Held>)
        ensures back { V.leases self.new.volume
            ≡ without (V.Held.list snapshot.lease) (V.leases self.old.volume) }
        ensures added { Added (V.faults self.old.volume) (V.Held.faults snapshot.lease)
            (V.faults self.new.volume) }
        ensures broken_as_before { self.new.is_broken ≡ self.old.is_broken }
        ensures kinds { self.new.kinds ≡ self.old.kinds }
        ensures log { self.new.log ≡ self.old.log }
        ensures newest { KeepsNewest self.old.roots self.new.roots
            self.old.commit self.new.commit self.old.file_count self.new.file_count }
        ensures files { KeepsFiles V.tells V.files V.moment V.may_leave V.refs V.faults
            self.old.volume self.new.volume }
        ensures steady { IsTrue (V.tells self.old.volume)
            → IsSteady self.old.log (V.files self.old.volume)
            (V.may_leave self.old.volume (V.moment self.old.volume))
            → IsSteady self.new.log (V.files self.new.volume)
            (V.may_leave self.new.volume (V.moment self.new.volume)) }
    {
        let Snapshot {
            lease,
            roots: _,
            version: _,
            pages: _,
        } = snapshot;
        self.volume.take_back(lease);
    }

    /// Writes the block of the next commit, and goes on from it.
    fn write_commit(&mut self, built: Built) -> Result<(), LogError>
        requires whole { self.old.is_broken ≡ false }
        requires room { is_due self.old.log ≡ true → is_last self.old.log ≡ false }
        requires numbers_left { self.old.commit + 1 < 2 ^ 64 }
        requires next { IsTrue (V.tells self.old.volume) → IsNextBlock self.old.log
            (V.files self.old.volume) built.block built.back built.roots (self.old.commit + 1) }
        requires placed { IsPlacedAt (next_place_of self.old.log) built }
        ensures committed { OnOk result (self.new.commit ≡ self.old.commit + 1) }
        ensures trees { IsTrue (V.tells self.old.volume) → OnOk result (
            env_trees self.new.log.file (V.files self.new.volume) self.new.roots
            ≡ trees_with self.old.log (V.files self.old.volume) built.block built.roots) }
        ensures refused { OnErr result (KeepsCommit (V.tells self.old.volume)
            self.old.commit self.new.commit self.old.roots self.new.roots
            (env_trees self.old.log.file (V.files self.old.volume) self.old.roots)
            (env_trees self.new.log.file (V.files self.new.volume) self.new.roots)) }
        ensures breaks_exactly { (self.new.is_broken ≡ true) ↔ IsErrOf result LogError.Device }
        ensures numbers_stay { (last : ℕ) → ¬ (IsErrOf result (LogError.NumbersSpent last)) }
        ensures goes_on { GoesOn self.old.log self.new.log (is_ok result) }
        ensures kinds { self.new.kinds ≡ self.old.kinds }
        ensures failed { IsErrOf result LogError.Device
            → Rose (V.faults self.old.volume) (V.faults self.new.volume) }
        ensures unfailed { ¬ (IsErrOf result LogError.Device)
            → V.faults self.new.volume ≡ V.faults self.old.volume }
        ensures stays { Stays (V.tells self.old.volume) (V.tells self.new.volume)
            (V.leases self.old.volume) (V.leases self.new.volume)
            (V.refs self.old.volume) (V.refs self.new.volume)
            (V.faults self.old.volume) (V.faults self.new.volume) }

        // What a crash may leave.
        ensures kept { IsTrue (V.tells self.old.volume)
            → V.may_leave self.old.volume (V.moment self.old.volume) (V.files self.old.volume)
            → V.may_leave self.new.volume (V.moment self.new.volume) (V.files self.new.volume) }
        ensures crash { IsTrue (V.tells self.old.volume)
            → IsSteady self.old.log (V.files self.old.volume)
            (V.may_leave self.old.volume (V.moment self.old.volume))
            → Passes (V.moment self.old.volume) (V.moment self.new.volume)
            (V.may_leave self.old.volume) (V.may_leave self.new.volume)
            (Stores (Some (newest_stored self.old.log.file (V.files self.old.volume)
            self.old.roots self.old.commit))) }
        ensures steady { IsTrue (V.tells self.old.volume)
            → IsSteady self.old.log (V.files self.old.volume)
            (V.may_leave self.old.volume (V.moment self.old.volume))
            → self.new.is_broken ≡ false
            → IsSteady self.new.log (V.files self.new.volume)
            (V.may_leave self.new.volume (V.moment self.new.volume)) }
    {
        let Env {
            volume,
            log,
            roots,
            commit,
            file_count,
            is_broken,
            ..
        } = self;
        let Built {
            block,
            back,
            roots: new_roots,
        } = built;
        match write_block(volume, log, file_count, block.as_slice(), back) {
            Ok(()) => {
                *roots = new_roots;
                *commit += 1;
                Ok(())
            }
            Err(LogError::Device) => {
                *is_broken = true;
                Err(LogError::Device)
            }
            Err(LogError::NumbersSpent { last }) => Err(LogError::NumbersSpent { last }),
            Err(LogError::Memory) => Err(LogError::Memory),
        }
    }

    /// Builds the block of the next commit, and writes it.
    fn commit_changes(&mut self, alloc: Global, changes: &Overlay) -> Result<(), FlushError>
        requires whole { self.old.is_broken ≡ false }
        requires numbers_left { self.old.commit + 1 < 2 ^ 64 }
        requires fit { Fit (touched changes.now) }
        requires rows { IsTrue (V.tells self.old.volume)
            → is_some (rows_of (overlaid_trees (touched changes.now)
            (env_trees self.old.log.file (V.files self.old.volume) self.old.roots))) ≡ true }
        ensures committed { OnOk result (self.new.commit ≡ self.old.commit + 1) }
        ensures trees { IsTrue (V.tells self.old.volume) → OnOk result ((tree : ℕ)
            → env_trees self.new.log.file (V.files self.new.volume) self.new.roots tree
            ≡ overlaid_trees (touched changes.now)
            (env_trees self.old.log.file (V.files self.old.volume) self.old.roots) tree) }
        ensures refused { OnErr result (KeepsCommit (V.tells self.old.volume)
            self.old.commit self.new.commit self.old.roots self.new.roots
            (env_trees self.old.log.file (V.files self.old.volume) self.old.roots)
            (env_trees self.new.log.file (V.files self.new.volume) self.new.roots)) }
        ensures breaks_only_by_device { self.new.is_broken ≡ true
            → IsErrOf result FlushError.Device }
        ensures no_other { (¬ (IsErrOf result FlushError.Broken)) × ((seen now : ℕ)
            → ¬ (IsErrOf result (FlushError.Conflict seen now))) }
        ensures spent_by_file { (last : ℕ) → IsErrOf result (FlushError.NumbersSpent last)
            → IsFileSpent self.old.log last }
        ensures room { is_due self.old.log ≡ true → is_last self.old.log ≡ true → IsErr result }
        ensures goes_on { GoesOn self.old.log self.new.log (is_ok result) }
        ensures kinds { self.new.kinds ≡ self.old.kinds }
        ensures never_damaged { IsTrue (V.tells self.old.volume) → (place : Place)
            → ¬ (IsErrOf result (FlushError.Damaged place)) }
        ensures device { IsErrOf result FlushError.Device
            → Rose (V.faults self.old.volume) (V.faults self.new.volume) }
        ensures unfailed { ¬ (IsErrOf result FlushError.Device)
            → ((place : Place) → ¬ (IsErrOf result (FlushError.Damaged place)))
            → V.faults self.new.volume ≡ V.faults self.old.volume }
        ensures stays { Stays (V.tells self.old.volume) (V.tells self.new.volume)
            (V.leases self.old.volume) (V.leases self.new.volume)
            (V.refs self.old.volume) (V.refs self.new.volume)
            (V.faults self.old.volume) (V.faults self.new.volume) }

        // What a crash may leave.
        ensures kept { IsTrue (V.tells self.old.volume)
            → V.may_leave self.old.volume (V.moment self.old.volume) (V.files self.old.volume)
            → V.may_leave self.new.volume (V.moment self.new.volume) (V.files self.new.volume) }
        ensures crash { IsTrue (V.tells self.old.volume)
            → IsSteady self.old.log (V.files self.old.volume)
            (V.may_leave self.old.volume (V.moment self.old.volume))
            → Passes (V.moment self.old.volume) (V.moment self.new.volume)
            (V.may_leave self.old.volume) (V.may_leave self.new.volume)
            (Stores (Some (newest_stored self.old.log.file (V.files self.old.volume)
            self.old.roots self.old.commit))) }
        ensures steady { IsTrue (V.tells self.old.volume)
            → IsSteady self.old.log (V.files self.old.volume)
            (V.may_leave self.old.volume (V.moment self.old.volume))
            → self.new.is_broken ≡ false
            → IsSteady self.new.log (V.files self.new.volume)
            (V.may_leave self.new.volume (V.moment self.new.volume)) }
    {
        if self.log.next_place().at >= NO_PLACE {
            return Err(FlushError::NumbersSpent {
                last: u64::from(u32::MAX),
            });
        }
        let next = self.commit + 1;
        let log = self.log;
        let built = build_next(alloc, &mut self.volume, log, &self.roots, next, changes)?;
        if !has_room(&self.log) {
            return Err(FlushError::NumbersSpent {
                last: u64::from(u32::MAX),
            });
        }
        self.write_commit(built)?;
        Ok(())
    }

    /// Commits touched keys over the newest commit, which `base` is to be: the trees are then those before with these keys
    /// put and removed. A refusal leaves the newest commit, its roots and its trees as they were; after a write that
    /// failed the environment is broken. Only `sync` and `close` make the commit outlive a crash.
    pub fn flush(
        &mut self,
        alloc: Global,
        base: u64,
        changes: &Overlay,
    ) -> Result<Flushed, FlushError>
        requires seen { base ≤ self.old.commit }
        requires fit { Fit (touched changes.now) }
        requires rows { IsTrue (V.tells self.old.volume) → self.old.is_broken ≡ false
            → base ≡ self.old.commit → is_some (rows_of (overlaid_trees (touched changes.now)
            (env_trees self.old.log.file (V.files self.old.volume) self.old.roots))) ≡ true }
        ensures committed { (version : ℕ) → result ≡ Ok (Flushed.Commit version)
            → (version ≡ self.old.commit + 1) × (self.new.commit ≡ version) }
        ensures trees { IsTrue (V.tells self.old.volume) → (version tree : ℕ)
            → result ≡ Ok (Flushed.Commit version)
            → env_trees self.new.log.file (V.files self.new.volume) self.new.roots tree
            ≡ overlaid_trees (touched changes.now)
            (env_trees self.old.log.file (V.files self.old.volume) self.old.roots) tree }

        // What comes before all else, in this order.
        ensures broken_exactly { (result ≡ Err FlushError.Broken)
            ↔ (self.old.is_broken ≡ true) }
        ensures broken_before_all { self.old.is_broken ≡ true → self.new ≡ self.old }
        ensures nothing_exactly { (result ≡ Ok Flushed.Nothing)
            ↔ ((self.old.is_broken ≡ false) × IsUntouched (touched changes.now)) }
        ensures nothing_leaves_all { result ≡ Ok Flushed.Nothing → self.new ≡ self.old }
        ensures conflict_exactly { (seen now : ℕ) → (result ≡ Err (FlushError.Conflict seen now))
            ↔ IsConflict self.old.is_broken (touched changes.now) base self.old.commit seen now }
        ensures conflict_leaves_all { (seen now : ℕ)
            → result ≡ Err (FlushError.Conflict seen now) → self.new ≡ self.old }
        ensures spent_by_commit { self.old.is_broken ≡ false
            → ¬ (IsUntouched (touched changes.now)) → base ≡ self.old.commit
            → self.old.commit ≡ last_commit
            → (result ≡ Err (FlushError.NumbersSpent last_commit)) × (self.new ≡ self.old) }
        ensures spent_only { (last : ℕ) → result ≡ Err (FlushError.NumbersSpent last)
            → IsSpent self.old.commit self.old.log last }
        ensures spent_by_file { is_due self.old.log ≡ true → is_last self.old.log ≡ true
            → is_commit result ≡ false }
        ensures goes_on { GoesOn self.old.log self.new.log (is_commit result) }
        ensures kinds { self.new.kinds ≡ self.old.kinds }

        // Each refusal.
        ensures refused { OnErr result (KeepsCommit (V.tells self.old.volume)
            self.old.commit self.new.commit self.old.roots self.new.roots
            (env_trees self.old.log.file (V.files self.old.volume) self.old.roots)
            (env_trees self.new.log.file (V.files self.new.volume) self.new.roots)) }
        ensures breaks_only_by_device { self.old.is_broken ≡ false → self.new.is_broken ≡ true
            → result ≡ Err FlushError.Device }
        ensures device { result ≡ Err FlushError.Device
            → Rose (V.faults self.old.volume) (V.faults self.new.volume) }
        ensures unfailed { ¬ (result ≡ Err FlushError.Device)
            → ((place : Place) → ¬ (result ≡ Err (FlushError.Damaged place)))
            → V.faults self.new.volume ≡ V.faults self.old.volume }
        ensures never_damaged { IsTrue (V.tells self.old.volume) → (place : Place)
            → ¬ (result ≡ Err (FlushError.Damaged place)) }
        ensures stays { Stays (V.tells self.old.volume) (V.tells self.new.volume)
            (V.leases self.old.volume) (V.leases self.new.volume)
            (V.refs self.old.volume) (V.refs self.new.volume)
            (V.faults self.old.volume) (V.faults self.new.volume) }

        // What a crash may leave.
        ensures kept { IsTrue (V.tells self.old.volume)
            → V.may_leave self.old.volume (V.moment self.old.volume) (V.files self.old.volume)
            → V.may_leave self.new.volume (V.moment self.new.volume) (V.files self.new.volume) }
        ensures crash { IsTrue (V.tells self.old.volume) → self.old.is_broken ≡ false
            → IsSteady self.old.log (V.files self.old.volume)
            (V.may_leave self.old.volume (V.moment self.old.volume))
            → Passes (V.moment self.old.volume) (V.moment self.new.volume)
            (V.may_leave self.old.volume) (V.may_leave self.new.volume)
            (Stores (Some (newest_stored self.old.log.file (V.files self.old.volume)
            self.old.roots self.old.commit))) }
        ensures steady { IsTrue (V.tells self.old.volume)
            → IsSteady self.old.log (V.files self.old.volume)
            (V.may_leave self.old.volume (V.moment self.old.volume))
            → self.new.is_broken ≡ false
            → IsSteady self.new.log (V.files self.new.volume)
            (V.may_leave self.new.volume (V.moment self.new.volume)) }
    {
        if self.is_broken {
            return Err(FlushError::Broken);
        }
        if changes.is_empty() {
            return Ok(Flushed::Nothing);
        }
        if base != self.commit {
            return Err(FlushError::Conflict {
                base,
                now: self.commit,
            });
        }
        if self.commit == u64::MAX {
            return Err(FlushError::NumbersSpent { last: u64::MAX });
        }
        self.commit_changes(alloc, changes)?;
        Ok(Flushed::Commit {
            version: self.commit,
        })
    }

    /// Makes the newest commit outlive a crash.
    pub fn sync(&mut self) -> Result<(), EnvError>
        ensures durable { IsTrue (V.tells self.old.volume)
            → IsSteady self.old.log (V.files self.old.volume)
            (V.may_leave self.old.volume (V.moment self.old.volume))
            → OnOk result (AllStore (Some (newest_stored self.old.log.file
            (V.files self.old.volume) self.old.roots self.old.commit))
            (V.may_leave self.new.volume (V.moment self.new.volume))) }
        ensures stores { IsTrue (V.tells self.old.volume) → OnOk result (
            stored_in (V.files self.new.volume) ≡ Some (newest_stored self.old.log.file
            (V.files self.old.volume) self.old.roots self.old.commit)) }
        ensures refusals { Refuses self.old.is_broken (V.faults self.old.volume)
            (V.faults self.new.volume) result }
        ensures broken_before_all { self.old.is_broken ≡ true → self.new ≡ self.old }
        ensures sealed_rests { self.old.log.is_sealed ≡ true → self.old.is_broken ≡ false
            → IsOk result × (self.new.volume ≡ self.old.volume)
            × (self.new.log ≡ self.old.log) }
        ensures breaks_exactly { self.old.is_broken ≡ false
            → (self.new.is_broken ≡ true) ↔ IsErrOf result EnvError.Device }
        ensures log { self.new.log
            ≡ (if is_ok result then sealed_log self.old.log else self.old.log) }
        ensures kinds { self.new.kinds ≡ self.old.kinds }
        ensures newest { KeepsNewest self.old.roots self.new.roots
            self.old.commit self.new.commit self.old.file_count self.new.file_count }
        ensures trees { IsTrue (V.tells self.old.volume) → (roots : Roots)
            → env_trees self.old.log.file (V.files self.new.volume) roots
            ≡ env_trees self.old.log.file (V.files self.old.volume) roots }
        ensures stays { Stays (V.tells self.old.volume) (V.tells self.new.volume)
            (V.leases self.old.volume) (V.leases self.new.volume)
            (V.refs self.old.volume) (V.refs self.new.volume)
            (V.faults self.old.volume) (V.faults self.new.volume) }

        // What a crash may leave.
        ensures kept { IsTrue (V.tells self.old.volume)
            → V.may_leave self.old.volume (V.moment self.old.volume) (V.files self.old.volume)
            → V.may_leave self.new.volume (V.moment self.new.volume) (V.files self.new.volume) }
        ensures crash { IsTrue (V.tells self.old.volume) → self.old.is_broken ≡ false
            → IsSteady self.old.log (V.files self.old.volume)
            (V.may_leave self.old.volume (V.moment self.old.volume))
            → Passes (V.moment self.old.volume) (V.moment self.new.volume)
            (V.may_leave self.old.volume) (V.may_leave self.new.volume)
            (Stores (Some (newest_stored self.old.log.file (V.files self.old.volume)
            self.old.roots self.old.commit))) }
        ensures steady { IsTrue (V.tells self.old.volume)
            → IsSteady self.old.log (V.files self.old.volume)
            (V.may_leave self.old.volume (V.moment self.old.volume))
            → ¬ (IsErrOf result EnvError.Device)
            → IsSteady self.new.log (V.files self.new.volume)
            (V.may_leave self.new.volume (V.moment self.new.volume)) }
        ensures settled { IsTrue (V.tells self.old.volume)
            → IsSteady self.old.log (V.files self.old.volume)
            (V.may_leave self.old.volume (V.moment self.old.volume))
            → OnOk result (Settled (V.files self.new.volume)
            (V.may_leave self.new.volume (V.moment self.new.volume))) }
    {
        if self.is_broken {
            return Err(EnvError::Broken);
        }
        let Env {
            volume,
            log,
            is_broken,
            ..
        } = self;
        match seal_newest(volume, log) {
            Ok(()) => Ok(()),
            Err(LogError::Device) => {
                *is_broken = true;
                Err(EnvError::Device)
            }
            Err(LogError::NumbersSpent { last }) => Err(EnvError::NumbersSpent { last }),
            Err(LogError::Memory) => Err(EnvError::Memory),
        }
    }

    /// Makes the newest commit outlive a crash, and hands the volume back, which may still have leases out.
    pub fn close(self) -> (V, Result<(), EnvError>)
        ensures durable { IsTrue (V.tells self.volume)
            → IsSteady self.log (V.files self.volume)
            (V.may_leave self.volume (V.moment self.volume))
            → OnOk result.1 (AllStore (Some (newest_stored self.log.file
            (V.files self.volume) self.roots self.commit))
            (V.may_leave result.0 (V.moment result.0))) }
        ensures stores { IsTrue (V.tells self.volume) → OnOk result.1 (
            stored_in (V.files result.0) ≡ Some (newest_stored self.log.file
            (V.files self.volume) self.roots self.commit)) }
        ensures refusals { Refuses self.is_broken (V.faults self.volume)
            (V.faults result.0) result.1 }
        ensures broken_seals_nothing { self.is_broken ≡ true → result.0 ≡ self.volume }
        ensures sealed_rests { self.log.is_sealed ≡ true → self.is_broken ≡ false
            → result.0 ≡ self.volume }
        ensures counted { IsTrue (V.tells self.volume)
            → log_file_count (V.files result.0) ≡ self.file_count }
        ensures last { IsTrue (V.tells self.volume) → is_last self.log ≡ true
            → contains_key (V.files result.0) (body_of last_file) ≡ true }
        ensures stays { Stays (V.tells self.volume) (V.tells result.0)
            (V.leases self.volume) (V.leases result.0) (V.refs self.volume) (V.refs result.0)
            (V.faults self.volume) (V.faults result.0) }

        // What a crash may leave.
        ensures kept { IsTrue (V.tells self.volume)
            → V.may_leave self.volume (V.moment self.volume) (V.files self.volume)
            → V.may_leave result.0 (V.moment result.0) (V.files result.0) }
        ensures crash { IsTrue (V.tells self.volume) → self.is_broken ≡ false
            → IsSteady self.log (V.files self.volume)
            (V.may_leave self.volume (V.moment self.volume))
            → Passes (V.moment self.volume) (V.moment result.0)
            (V.may_leave self.volume) (V.may_leave result.0)
            (Stores (Some (newest_stored self.log.file (V.files self.volume)
            self.roots self.commit))) }
        ensures settled { IsTrue (V.tells self.volume)
            → IsSteady self.log (V.files self.volume)
            (V.may_leave self.volume (V.moment self.volume))
            → OnOk result.1 (Settled (V.files result.0)
            (V.may_leave result.0 (V.moment result.0))) }
    {
        let mut env = self;
        let answer = env.sync();
        let Env {
            volume,
            log: _,
            roots: _,
            commit: _,
            file_count: _,
            kinds: _,
            is_broken: _,
        } = env;
        (volume, answer)
    }
}
