//! The steps of a store but the flush.
//!
//! Each appends its one entry where it answers Ok, and nothing else. What they answer stands in `xod_journal`, in
//! `specs/Spaces.antt` and `specs/Begins.antt`, with the cause of an error in the place of the error.
ghost use Rattle.std.specs.Prelude.{◌≡◌, ◌⊎◌, Err, is_some, IfErr, IfOk, OnErr, OnOk};
ghost use Rattle.xod_base.specs.Causes.{Rose};
ghost use Rattle.xod_base.specs.declared.causes.Place.{Place};
ghost use Rattle.xod_env.specs.declared.error.EnvError.TheVariants as env_error;
ghost use Rattle.xod_journal.specs.declared.journal.Step.TheVariants as step;
ghost use Rattle.xod_journal.specs.Begins.{DoesNotBegin};
ghost use Rattle.xod_journal.specs.Locals.{KeepsLocal};
ghost use Rattle.xod_journal.specs.Seats.{entered};
ghost use Rattle.xod_journal.specs.Spaces.{Begins, CanStop, HasNoTxn, HasNotStopped, IsOpen, KeepsSpace, Refuses, Reverts, Syncs, faults_in};
ghost use Rattle.xod_store.specs.declared.causes.BeginError.{BeginError};
ghost use Rattle.xod_store.specs.Causes.{cause_of, fault_of};
ghost use Rattle.xod_store.specs.Leaving.{StepLeaves};

use crate::causes::BeginError;
use crate::pins::{pin_newest, take_back};
use crate::state::{StoreState, StoreTxn};
use std::alloc::Global;
use xod_base::{Cause, Mode};
use xod_books::{enter, make_room};
use xod_env::EnvError;
use xod_estxn::EntityTxn;
use xod_journal::{Local, Origin, Pinned, Space, Step};
use xod_volume::Volume;

impl<V: Volume> StoreState<V> {
    /// Begins a transaction, which sees the newest commit.
    pub fn step_begin(
        &mut self,
        alloc: Global,
        actor: u32,
        mode: Mode,
    ) -> Result<StoreTxn<V>, BeginError>
        requires { HasNoTxn (⟦<StoreState<V> as Space>⟧.view self.old) actor }
        ensures begins { IfOk result (λ txn. Begins actor mode (⟦<StoreState<V> as Space>⟧.view self.old)
            (⟦<StoreState<V> as Space>⟧.view self.new) ((⟦<StoreTxn<V> as Local>⟧.txn txn).base)
            (⟦<StoreTxn<V> as Local>⟧.tells txn) (⟦<StoreTxn<V> as Local>⟧.txn txn)) }
        ensures refused { IfErr result (λ error. DoesNotBegin mode
            (⟦<StoreState<V> as Space>⟧.view self.old) (⟦<StoreState<V> as Space>⟧.view self.new) (fault_of error)) }
        ensures undamaged { (place : Place) → ¬ (result ≡ Err (BeginError.Env (env_error.Damaged place))) }
        ensures keeps { KeepsSpace (⟦<StoreState<V> as Space>⟧.view self.old)
            (⟦<StoreState<V> as Space>⟧.view self.new) }
        ensures start { self.new.start ≡ self.old.start }
        ensures crash { StepLeaves self.old.start.origin.value self.old.journal.items
            self.old.env self.new.env }
    {
        if let Some(holder) = self.open_txns.holder(mode) {
            return Err(BeginError::Busy { holder });
        }
        make_room(&mut self.journal, self.start.sessions as usize + 1)?;
        let (snapshot, adapter) = pin_newest(alloc, &mut self.env, &self.adapter)?;
        let base = snapshot.version;
        if let Err(error) = self.open_txns.set(actor, Pinned { mode, base }) {
            self.env.unpin(snapshot);
            return Err(BeginError::from(error));
        }
        enter(&mut self.journal, actor, Step::Begin { mode });
        Ok(EntityTxn::new(alloc, snapshot, adapter, mode))
    }

    /// Drops a transaction's changes, and lets it see the newest commit, which it answers.
    pub fn step_revert(
        &mut self,
        alloc: Global,
        actor: u32,
        txn: &mut StoreTxn<V>,
    ) -> Result<u64, EnvError>
        requires { IsOpen (⟦<StoreState<V> as Space>⟧.view self.old) actor
            (⟦<StoreTxn<V> as Local>⟧.tells txn.old) (⟦<StoreTxn<V> as Local>⟧.txn txn.old) }
        ensures reverts { IfOk result (λ commit. Reverts actor (⟦<StoreState<V> as Space>⟧.view self.old)
            (⟦<StoreState<V> as Space>⟧.view self.new) commit (⟦<StoreTxn<V> as Local>⟧.txn txn.old)
            (⟦<StoreTxn<V> as Local>⟧.tells txn.new) (⟦<StoreTxn<V> as Local>⟧.txn txn.new)) }
        ensures refused { IfErr result (λ error. Refuses (⟦<StoreState<V> as Space>⟧.view self.old)
            (⟦<StoreState<V> as Space>⟧.view self.new) (Rose ((⟦<StoreState<V> as Space>⟧.view self.old).faults) ((⟦<StoreState<V> as Space>⟧.view self.new).faults)
            ⊎ Rose (⟦<StoreTxn<V> as Local>⟧.faults txn.old) (⟦<StoreTxn<V> as Local>⟧.faults txn.new)) ⊥ (cause_of error)) }
        ensures kept { OnErr result (KeepsLocal ⟦<StoreTxn<V> as Local>⟧.tells ⟦<StoreTxn<V> as Local>⟧.txn
            ⟦<StoreTxn<V> as Local>⟧.refs ⟦<StoreTxn<V> as Local>⟧.faults txn.old txn.new) }
        ensures undamaged { (place : Place) → ¬ (result ≡ Err (env_error.Damaged place)) }
        ensures keeps { KeepsSpace (⟦<StoreState<V> as Space>⟧.view self.old)
            (⟦<StoreState<V> as Space>⟧.view self.new) }
        ensures start { self.new.start ≡ self.old.start }
        ensures crash { StepLeaves self.old.start.origin.value self.old.journal.items
            self.old.env self.new.env }
    {
        make_room(&mut self.journal, self.start.sessions as usize + 1)?;
        let (snapshot, adapter) = pin_newest(alloc, &mut self.env, &self.adapter)?;
        let base = snapshot.version;
        let (old, _) = txn.renew(alloc, snapshot, adapter);
        self.env.unpin(old);
        self.open_txns.rebase(actor, base);
        enter(&mut self.journal, actor, Step::Revert);
        Ok(base)
    }

    /// Gives a transaction back, with its changes. For want of memory it hands it out again.
    pub fn step_end(&mut self, actor: u32, txn: StoreTxn<V>) -> Result<(), StoreTxn<V>>
        requires { IsOpen (⟦<StoreState<V> as Space>⟧.view self.old) actor
            (⟦<StoreTxn<V> as Local>⟧.tells txn) (⟦<StoreTxn<V> as Local>⟧.txn txn) }
        ensures entry { OnOk result (self.new.journal.items
            ≡ entered self.old.journal.items actor step.End) }
        ensures refused { OnErr result (self.new.journal.items ≡ self.old.journal.items) }
        ensures kept { IfErr result (KeepsLocal ⟦<StoreTxn<V> as Local>⟧.tells ⟦<StoreTxn<V> as Local>⟧.txn
            ⟦<StoreTxn<V> as Local>⟧.refs ⟦<StoreTxn<V> as Local>⟧.faults txn) }
        ensures keeps { KeepsSpace (⟦<StoreState<V> as Space>⟧.view self.old)
            (⟦<StoreState<V> as Space>⟧.view self.new) }
        ensures start { self.new.start ≡ self.old.start }
        ensures crash { StepLeaves self.old.start.origin.value self.old.journal.items
            self.old.env self.new.env }
    {
        let Ok(()) = make_room(&mut self.journal, self.start.sessions as usize + 1) else {
            return Err(txn);
        };
        let (snapshot, _) = txn.into_parts();
        self.env.unpin(snapshot);
        self.open_txns.remove(actor);
        enter(&mut self.journal, actor, Step::End);
        Ok(())
    }

    /// Makes every commit so far outlive a crash.
    pub fn step_sync(&mut self, actor: u32) -> Result<(), EnvError>
        requires { HasNotStopped (⟦<StoreState<V> as Space>⟧.view self.old) actor }
        ensures syncs { OnOk result (Syncs actor (⟦<StoreState<V> as Space>⟧.view self.old)
            (⟦<StoreState<V> as Space>⟧.view self.new)) }
        ensures refused { IfErr result (λ error. Refuses (⟦<StoreState<V> as Space>⟧.view self.old)
            (⟦<StoreState<V> as Space>⟧.view self.new) (Rose ((⟦<StoreState<V> as Space>⟧.view self.old).faults) ((⟦<StoreState<V> as Space>⟧.view self.new).faults)) ⊥ (cause_of error)) }
        ensures undamaged { (place : Place) → ¬ (result ≡ Err (env_error.Damaged place)) }
        ensures keeps { KeepsSpace (⟦<StoreState<V> as Space>⟧.view self.old)
            (⟦<StoreState<V> as Space>⟧.view self.new) }
        ensures start { self.new.start ≡ self.old.start }
        ensures crash { StepLeaves self.old.start.origin.value self.old.journal.items
            self.old.env self.new.env }
    {
        make_room(&mut self.journal, self.start.sessions as usize + 1)?;
        self.env.sync()?;
        enter(&mut self.journal, actor, Step::Sync);
        Ok(())
    }

    /// Stops a session at a line, and takes its transaction back. It takes no memory.
    pub fn step_stop(
        &mut self,
        actor: u32,
        txn: Option<StoreTxn<V>>,
        line: u32,
        cause: Cause,
        origin: Origin,
    )
        requires { CanStop (⟦<StoreState<V> as Space>⟧.view self.old) actor (is_some txn)
            (faults_in ⟦<StoreTxn<V> as Local>⟧.faults txn) cause origin }
        ensures entry { self.new.journal.items
            ≡ entered self.old.journal.items actor (step.Stop line cause origin) }
        ensures keeps { KeepsSpace (⟦<StoreState<V> as Space>⟧.view self.old)
            (⟦<StoreState<V> as Space>⟧.view self.new) }
        ensures start { self.new.start ≡ self.old.start }
        ensures crash { StepLeaves self.old.start.origin.value self.old.journal.items
            self.old.env self.new.env }
    {
        take_back(&mut self.env, txn);
        self.open_txns.remove(actor);
        enter(
            &mut self.journal,
            actor,
            Step::Stop {
                line,
                cause,
                origin,
            },
        );
    }
}
