//! The flush of a store.
//!
//! All that takes memory is taken before the environment makes the commit, but for the snapshot at which the transaction
//! goes on: where that fails, the commit stands, and the answer says so.
ghost use Rattle.std.specs.Prelude.{◌≡◌, ◌≤◌, ◌+◌, ◌⊎◌, ℕ, false, Err, IfErr, IfOk, IsTrue, OnErr, OnOk, vec_len, vec_capacity};
ghost use Rattle.xod_base.specs.Causes.{Rose};
ghost use Rattle.xod_base.specs.declared.answer.FlushAnswer.{FlushAnswer};
ghost use Rattle.xod_base.specs.declared.causes.Place.{Place};
ghost use Rattle.xod_cache.specs.Kinds.{kinds_after};
ghost use Rattle.xod_env.specs.declared.error.EnvError.TheVariants as env_error;
ghost use Rattle.xod_env.specs.Flushes.{IsSpent};
ghost use Rattle.xod_journal.specs.Locals.{KeepsLocal};
ghost use Rattle.xod_journal.specs.Spaces.{Flushes, IsFlushed, IsOpen, KeepsSpace, Refuses, newest_of};
ghost use Rattle.xod_store.specs.Causes.{cause_of};
ghost use Rattle.xod_store.specs.Flushed.{MayGoOn, answered};
ghost use Rattle.xod_store.specs.Leaving.{StepLeaves};
ghost use Rattle.xod_volume.specs.Crash.{Rests};

use crate::causes::cause_of;
use crate::pins::pin_newest;
use crate::state::{StoreState, StoreTxn};
use std::alloc::Global;
use xod_base::{Cause, FlushAnswer, Memory};
use xod_books::{enter, make_room};
use xod_cache::Adapter;
use xod_env::{EnvError, FlushError, Flushed};
use xod_journal::{ChangeList, Local, RowChange, Space, Step, copy_changes};
use xod_volume::Volume;

/// What a flush of the environment is answered. A conflict is an answer, every other error a refusal.
fn answered(flushed: Result<Flushed, FlushError>) -> Result<FlushAnswer, EnvError>
    ensures { result ≡ answered flushed }
{
    match flushed {
        Ok(Flushed::Nothing) => Ok(FlushAnswer::Nothing),
        Ok(Flushed::Commit { version }) => Ok(FlushAnswer::Committed {
            version,
            fault: None,
        }),
        Err(FlushError::Conflict { base, now }) => Ok(FlushAnswer::Conflict { base, now }),
        Err(FlushError::Broken) => Err(EnvError::Broken),
        Err(FlushError::Device) => Err(EnvError::Device),
        Err(FlushError::Damaged(place)) => Err(EnvError::Damaged(place)),
        Err(FlushError::NumbersSpent { last }) => Err(EnvError::NumbersSpent { last }),
        Err(FlushError::Memory) => Err(EnvError::Memory),
    }
}

impl<V: Volume> StoreState<V> {
    /// Makes a transaction's changes a commit, where no other commit came since its base.
    ///
    /// After a commit with a fault the entry stands, and the transaction is as it was but for its count.
    pub fn step_flush(
        &mut self,
        alloc: Global,
        actor: u32,
        txn: &mut StoreTxn<V>,
    ) -> Result<FlushAnswer, EnvError>
        requires { IsOpen (⟦<StoreState<V> as Space>⟧.view self.old) actor
            (⟦<StoreTxn<V> as Local>⟧.tells txn.old) (⟦<StoreTxn<V> as Local>⟧.txn txn.old) }
        ensures flushes { IfOk result (λ answer. Flushes actor (⟦<StoreState<V> as Space>⟧.view self.old)
            (⟦<StoreState<V> as Space>⟧.view self.new) answer (⟦<StoreTxn<V> as Local>⟧.txn txn.old)) }
        ensures flushed { IfOk result (λ answer. IsFlushed ⟦<StoreTxn<V> as Local>⟧.tells ⟦<StoreTxn<V> as Local>⟧.txn
            ⟦<StoreTxn<V> as Local>⟧.refs ⟦<StoreTxn<V> as Local>⟧.faults
            (⟦<StoreState<V> as Space>⟧.view self.old) (⟦<StoreState<V> as Space>⟧.view self.new) answer txn.old txn.new) }
        ensures refused { IfErr result (λ error. Refuses (⟦<StoreState<V> as Space>⟧.view self.old)
            (⟦<StoreState<V> as Space>⟧.view self.new) (Rose ((⟦<StoreState<V> as Space>⟧.view self.old).faults) ((⟦<StoreState<V> as Space>⟧.view self.new).faults)
            ⊎ Rose (⟦<StoreTxn<V> as Local>⟧.faults txn.old) (⟦<StoreTxn<V> as Local>⟧.faults txn.new))
            (IsTrue ((⟦<StoreState<V> as Space>⟧.view self.new).is_last)) (cause_of error)) }
        ensures kept { OnErr result (KeepsLocal ⟦<StoreTxn<V> as Local>⟧.tells ⟦<StoreTxn<V> as Local>⟧.txn
            ⟦<StoreTxn<V> as Local>⟧.refs ⟦<StoreTxn<V> as Local>⟧.faults txn.old txn.new) }
        ensures undamaged { IsTrue (V.tells self.old.env.volume) → (place : Place)
            → ¬ (result ≡ Err (env_error.Damaged place)) }
        ensures spent { (last : ℕ) → result ≡ Err (env_error.NumbersSpent last)
            → IsSpent self.old.env.commit self.old.env.log last }
        ensures keeps { KeepsSpace (⟦<StoreState<V> as Space>⟧.view self.old)
            (⟦<StoreState<V> as Space>⟧.view self.new) }
        ensures start { self.new.start ≡ self.old.start }
        ensures crash { StepLeaves self.old.start.origin.value self.old.journal.items
            self.old.env self.new.env }
    {
        let (changes, next) = self.prepare(alloc, txn.changes().as_slice())?;
        match self.enter_flush(alloc, actor, txn, changes, next)? {
            FlushAnswer::Nothing => Ok(FlushAnswer::Nothing),
            FlushAnswer::Conflict { base, now } => Ok(FlushAnswer::Conflict { base, now }),
            FlushAnswer::Committed { version, fault: _ } => {
                let fault = self.go_on(alloc, txn);
                Ok(FlushAnswer::Committed { version, fault })
            }
        }
    }

    /// Makes room for a flush's entry: a copy of its changes, and the adapter after them. A refusal leaves all as it was.
    fn prepare(
        &mut self,
        alloc: Global,
        changes: &[RowChange],
    ) -> Result<(ChangeList, Adapter), Memory>
        ensures view { ⟦<StoreState<V> as Space>⟧.view self.new
            ≡ ⟦<StoreState<V> as Space>⟧.view self.old }
        ensures env { self.new.env ≡ self.old.env }
        ensures start { self.new.start ≡ self.old.start }
        ensures room { OnOk result (vec_len self.new.journal + (self.new.start.sessions + 1)
            ≤ vec_capacity self.new.journal) }
        ensures copied { IfOk result (λ made. made.0 ≡ changes.now) }
        ensures names { IfOk result (λ made. made.1.names
            ≡ kinds_after self.new.adapter.names changes.now) }
    {
        make_room(&mut self.journal, self.start.sessions as usize + 1)?;
        let copied = copy_changes(alloc, changes)?;
        let mut next = self.adapter.copy(alloc)?;
        next.follow(alloc, changes)?;
        Ok((copied, next))
    }

    /// Lets the environment make a commit of a transaction's changes, and enters what came of it. After a commit the
    /// transaction is to go on there.
    fn enter_flush(
        &mut self,
        alloc: Global,
        actor: u32,
        txn: &StoreTxn<V>,
        changes: ChangeList,
        next: Adapter,
    ) -> Result<FlushAnswer, EnvError>
        requires is_open { IsOpen (⟦<StoreState<V> as Space>⟧.view self.old) actor
            (⟦<StoreTxn<V> as Local>⟧.tells txn.now) (⟦<StoreTxn<V> as Local>⟧.txn txn.now) }
        requires room { vec_len self.old.journal + (self.old.start.sessions + 1)
            ≤ vec_capacity self.old.journal }
        requires copied { changes ≡ txn.now.changes }
        requires names { next.names ≡ kinds_after self.old.adapter.names txn.now.changes }
        ensures flushes { IfOk result (λ answer. Flushes actor (⟦<StoreState<V> as Space>⟧.view self.old)
            (⟦<StoreState<V> as Space>⟧.view self.new) answer (⟦<StoreTxn<V> as Local>⟧.txn txn.now)) }
        ensures may_go_on { IfOk result (λ answer. MayGoOn answer (⟦<StoreState<V> as Space>⟧.view self.new)
            self.new.env.commit (⟦<StoreTxn<V> as Local>⟧.txn txn.now)) }
        ensures refused { IfErr result (λ error. Refuses (⟦<StoreState<V> as Space>⟧.view self.old)
            (⟦<StoreState<V> as Space>⟧.view self.new) (Rose ((⟦<StoreState<V> as Space>⟧.view self.old).faults) ((⟦<StoreState<V> as Space>⟧.view self.new).faults))
            (IsTrue ((⟦<StoreState<V> as Space>⟧.view self.new).is_last)) (cause_of error)) }
        ensures undamaged { IsTrue (V.tells self.old.env.volume) → (place : Place)
            → ¬ (result ≡ Err (env_error.Damaged place)) }
        ensures spent { (last : ℕ) → result ≡ Err (env_error.NumbersSpent last)
            → IsSpent self.old.env.commit self.old.env.log last }
        ensures keeps { KeepsSpace (⟦<StoreState<V> as Space>⟧.view self.old)
            (⟦<StoreState<V> as Space>⟧.view self.new) }
        ensures start { self.new.start ≡ self.old.start }
        ensures crash { StepLeaves self.old.start.origin.value self.old.journal.items
            self.old.env self.new.env }
    {
        let base = txn.view().version;
        let answer = answered(self.env.flush(alloc, base, txn.overlay()))?;
        match answer {
            FlushAnswer::Nothing => {
                let version = None;
                enter(&mut self.journal, actor, Step::Flush { changes, version });
                Ok(FlushAnswer::Nothing)
            }
            FlushAnswer::Conflict { base, now } => {
                let version = None;
                enter(&mut self.journal, actor, Step::Flush { changes, version });
                Ok(FlushAnswer::Conflict { base, now })
            }
            FlushAnswer::Committed { version, fault: _ } => {
                self.adapter = next;
                self.open_txns.rebase(actor, version);
                let version = Some(version);
                enter(&mut self.journal, actor, Step::Flush { changes, version });
                Ok(answer)
            }
        }
    }

    /// Lets a transaction whose changes are the newest commit go on there. Where it can't, it is as it was.
    fn go_on(&mut self, alloc: Global, txn: &mut StoreTxn<V>) -> Option<Cause>
        requires unbroken { self.old.env.is_broken ≡ false }
        requires rows { IsTrue (V.tells self.old.env.volume)
            → (newest_of (⟦<StoreState<V> as Space>⟧.view self.old)).rows
            ≡ (⟦<StoreTxn<V> as Local>⟧.txn txn.old).rows }
        ensures flushed { IsFlushed ⟦<StoreTxn<V> as Local>⟧.tells ⟦<StoreTxn<V> as Local>⟧.txn
            ⟦<StoreTxn<V> as Local>⟧.refs ⟦<StoreTxn<V> as Local>⟧.faults
            (⟦<StoreState<V> as Space>⟧.view self.old) (⟦<StoreState<V> as Space>⟧.view self.new)
            (FlushAnswer.Committed self.old.env.commit result) txn.old txn.new }
        ensures journal { self.new.journal.items ≡ self.old.journal.items }
        ensures keeps { KeepsSpace (⟦<StoreState<V> as Space>⟧.view self.old)
            (⟦<StoreState<V> as Space>⟧.view self.new) }
        ensures start { self.new.start ≡ self.old.start }
        ensures rests { IsTrue (V.tells self.old.env.volume)
            → Rests (V.moment self.old.env.volume) (V.moment self.new.env.volume)
            (V.may_leave self.old.env.volume) (V.may_leave self.new.env.volume) }
    {
        match pin_newest(alloc, &mut self.env, &self.adapter) {
            Ok((snapshot, adapter)) => {
                let (old, _) = txn.renew(alloc, snapshot, adapter);
                self.env.unpin(old);
                None
            }
            Err(error) => Some(cause_of(error)),
        }
    }
}
