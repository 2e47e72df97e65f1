//! A store over an environment is a space.
//!
//! Each call hands on to the step of its name, and tells a session the cause of an error.
ghost use Rattle.std.specs.Prelude.{◌≡◌, is_some};
ghost use Rattle.xod_journal.specs.declared.journal.Step.TheVariants as step;
ghost use Rattle.xod_journal.specs.Seats.{entered};
ghost use Rattle.xod_journal.specs.Spaces.{CanStop, KeepsSpace, faults_in};
ghost use Rattle.xod_store.specs.StoreLaw.{store_lawful};
ghost use Rattle.xod_store.specs.Views.{env_newest, store_view};

use crate::causes::{cause_of, fault_of};
use crate::state::{StoreState, StoreTxn};
use std::alloc::Global;
use xod_base::{Cause, FlushAnswer, Mode};
use xod_journal::{BeginFault, Local, Origin, Space};
use xod_volume::Volume;

impl<V: Volume> Space for StoreState<V> {
    type Open = StoreTxn<V>;

    ghost view = { λ s. store_view (V.tells s.env.volume) (env_newest s.start.origin.value.log
        (V.files s.start.origin.value.volume) s.start.origin.value.roots
        s.start.origin.value.commit) s.journal.items (V.faults s.env.volume)
        (V.faults s.start.origin.value.volume) s.start.sessions s.env.is_broken s.env.log
        s.env.commit };

    ghost lawful = { λ s. store_lawful _ _ _ _ _ _ _ s.env.log s.env.commit _ _ _ _ _ s.accounted s.booked s.told };

    fn begin(
        &mut self,
        alloc: Global,
        actor: u32,
        mode: Mode,
    ) -> Result<(u64, StoreTxn<V>), BeginFault> {
        match self.step_begin(alloc, actor, mode) {
            Ok(txn) => {
                let base = txn.view().version;
                Ok((base, txn))
            }
            Err(error) => Err(fault_of(error)),
        }
    }

    fn flush(
        &mut self,
        alloc: Global,
        actor: u32,
        txn: &mut StoreTxn<V>,
    ) -> Result<FlushAnswer, Cause> {
        match self.step_flush(alloc, actor, txn) {
            Ok(answer) => Ok(answer),
            Err(error) => Err(cause_of(error)),
        }
    }

    fn revert(&mut self, alloc: Global, actor: u32, txn: &mut StoreTxn<V>) -> Result<u64, Cause> {
        match self.step_revert(alloc, actor, txn) {
            Ok(commit) => Ok(commit),
            Err(error) => Err(cause_of(error)),
        }
    }

    fn end(&mut self, actor: u32, txn: StoreTxn<V>) -> Result<(), StoreTxn<V>> {
        self.step_end(actor, txn)
    }

    fn sync(&mut self, actor: u32) -> Result<(), Cause> {
        match self.step_sync(actor) {
            Ok(()) => Ok(()),
            Err(error) => Err(cause_of(error)),
        }
    }

    fn stop(
        &mut self,
        actor: u32,
        txn: Option<StoreTxn<V>>,
        line: u32,
        cause: Cause,
        origin: Origin,
    )
        requires { CanStop (⟦<StoreState<V> as Space>⟧.view self.old) actor (is_some txn)
            (faults_in ⟦<StoreTxn<V> as Local>⟧.faults txn) cause origin }
        ensures entry { self.new.journal.items
            ≡ entered self.old.journal.items actor (step.Stop line cause origin) }
        ensures keeps { KeepsSpace (⟦<StoreState<V> as Space>⟧.view self.old)
            (⟦<StoreState<V> as Space>⟧.view self.new) }
    {
        self.step_stop(actor, txn, line, cause, origin);
    }
}
